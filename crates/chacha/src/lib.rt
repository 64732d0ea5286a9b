//! The block function of ChaCha20 (RFC 8439, section 2.3).
#![tactic(auto)]

ghost use Rattle.std.specs.Prelude.{◌≡◌, ◌+◌, ◌*◌, ◌^◌, ◌<◌, ◌≤◌, length, take, drop};
ghost use Rattle.std.specs.List.{flat_map};
ghost use Rattle.chacha.specs.Cipher.{mixed, quarter_round, column_rounds, diagonal_rounds, start_of, double_rounds, added, serialized, block_of};
ghost use Rattle.chacha.specs.Laws.{BlockLaws};

// The sixteen bytes that the start block begins with.
const TEXT: &[u8; 16] = b"expand 32-byte k";

// Key, counter and nonce stay three: they have these names in the standard, and C is to call `block` with them.
/// Fills `out` with the block of `key`, `counter` and `nonce`. The laws say of every block that it is 64 bytes.
#[tactic(auto, using(crate::proofs::Blocks::block_laws), unfolding(crate::specs::Cipher::block_of))]
pub fn block(key: &[u8; 32], counter: u32, nonce: &[u8; 12], out: &mut [u8; 64])
    ensures is { out.new ≡ block_of key.now counter nonce.now }
    ensures laws { BlockLaws }
{
    let first = start(key, counter, nonce);
    let last = worked(&first);
    write_sums(&last, &first, out);
}

/// Fills two buffers with the halves of the block of `key`, `counter` and `nonce`.
// Apart from `block`: one function for both went through an array of sums, and took 168 ns a block in place of 142; plain C takes 164.
#[tactic(auto, using(crate::proofs::Blocks::halves), unfolding(crate::specs::Cipher::block_of))]
pub fn halves(
    key: &[u8; 32],
    counter: u32,
    nonce: &[u8; 12],
    left: &mut [u8; 32],
    right: &mut [u8; 32],
)
    ensures left { left.new ≡ take 32 (block_of key.now counter nonce.now) }
    ensures right { right.new ≡ drop 32 (block_of key.now counter nonce.now) }
{
    let begun = start(key, counter, nonce);
    let done = worked(&begun);
    write_sums(&done[0..8], &begun[0..8], left);
    write_sums(&done[8..16], &begun[8..16], right);
}

// A start block after the twenty rounds.
#[tactic(auto, unfolding(crate::specs::Cipher::double_rounds))]
fn worked(first: &[u32; 16]) -> [u32; 16]
    ensures { result ≡ double_rounds 10 first.now }
{
    let mut s = *first;
    for _turn in 0..10usize {
        double_round(&mut s);
    }
    s
}

// Adds two rows of words, and writes the sums as bytes, each word's lowest first.
// Made as an array of chunks, the sums take 168 ns a block in place of 142, and plain C 164; over `chunks_exact_mut` an
// invariant cannot name `out`.
#[inline(always)]
#[tactic(auto, using(crate::proofs::Blocks::sums), unfolding(crate::specs::Cipher::added, crate::specs::Cipher::serialized))]
fn write_sums(a: &[u32], b: &[u32], out: &mut [u8])
    requires rows { length a.now ≡ length b.now }
    requires room { length out.old ≡ 4 * length a.now }
    ensures { out.new ≡ flat_map serialized (added a.now b.now) }
{
    for i in 0..a.len() {
        let w = a[i].wrapping_add(b[i]).to_le_bytes();
        out[4 * i..4 * i + 4].copy_from_slice(&w);
    }
}

// The start block: the text, the key, the counter and the nonce as little-endian words.
#[tactic(auto, using(crate::proofs::Blocks::words_read), unfolding(crate::specs::Cipher::start_of))]
fn start(key: &[u8; 32], counter: u32, nonce: &[u8; 12]) -> [u32; 16]
    ensures { result ≡ start_of key.now counter nonce.now }
{
    let (text, _) = TEXT.as_chunks::<4>();
    let (key, _) = key.as_chunks::<4>();
    let (nonce, _) = nonce.as_chunks::<4>();
    [
        u32::from_le_bytes(text[0]),
        u32::from_le_bytes(text[1]),
        u32::from_le_bytes(text[2]),
        u32::from_le_bytes(text[3]),
        u32::from_le_bytes(key[0]),
        u32::from_le_bytes(key[1]),
        u32::from_le_bytes(key[2]),
        u32::from_le_bytes(key[3]),
        u32::from_le_bytes(key[4]),
        u32::from_le_bytes(key[5]),
        u32::from_le_bytes(key[6]),
        u32::from_le_bytes(key[7]),
        counter,
        u32::from_le_bytes(nonce[0]),
        u32::from_le_bytes(nonce[1]),
        u32::from_le_bytes(nonce[2]),
    ]
}

// A column round and then a diagonal round.
#[tactic(auto, unfolding(crate::specs::Cipher::column_rounds, crate::specs::Cipher::diagonal_rounds))]
fn double_round(s: &mut [u32; 16])
    ensures { s.new ≡ diagonal_rounds (column_rounds s.old) }
{
    quarter_round(s, 0, 4, 8, 12);
    quarter_round(s, 1, 5, 9, 13);
    quarter_round(s, 2, 6, 10, 14);
    quarter_round(s, 3, 7, 11, 15);
    quarter_round(s, 0, 5, 10, 15);
    quarter_round(s, 1, 6, 11, 12);
    quarter_round(s, 2, 7, 8, 13);
    quarter_round(s, 3, 4, 9, 14);
}

// The words by their places, as the standard names them: a struct of four would be taken apart and put back each time.
#[tactic(auto, unfolding(crate::specs::Cipher::quarter_round))]
fn quarter_round(s: &mut [u32; 16], a: usize, b: usize, c: usize, d: usize)
    requires { (a < 16) × ((b < 16) × ((c < 16) × (d < 16))) }
    ensures { s.new ≡ quarter_round a b c d s.old }
{
    mix(s, a, b, d, 16);
    mix(s, c, d, b, 12);
    mix(s, a, b, d, 8);
    mix(s, c, d, b, 7);
}

// One line of a quarter round: a += b; d ^= a; d <<<= k.
#[tactic(auto, unfolding(crate::specs::Cipher::rotl, crate::specs::Cipher::mixed))]
fn mix(s: &mut [u32; 16], a: usize, b: usize, d: usize, k: u32)
    requires { (a < 16) × ((b < 16) × (d < 16)) }
    ensures { s.new ≡ mixed a b d k s.old }
{
    s[a] = s[a].wrapping_add(s[b]);
    s[d] = (s[d] ^ s[a]).rotate_left(k);
}
