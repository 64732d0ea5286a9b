//! The two named generators.
#![tactic(auto)]

ghost use Rattle.std.specs.Prelude.{◌≡◌, ℕ, ◌<◌, List, [], ◌∷◌, ◌++◌, length};
ghost use Rattle.std.proofs.Common.{◌∙◌, arith, length-drop, rules};
ghost use Rattle.std.proofs.ByRecursion.{All-take, All-drop};
ghost use Rattle.std.proofs.lemmas.List.{length-take-le};
ghost use Rattle.octets.specs.Buffers.{zeros};
ghost use Rattle.octets.proofs.Small.{each_small};
ghost use Rattle.chacha.proofs.Blocks.{block_laws};
ghost use Rattle.sha.specs.Digest.{sha256};
ghost use Rattle.sha.proofs.Digests.{digest_long, digest_bytes};
ghost use Rattle.generators.specs.Named.{chacha_meaning, sha_meaning, child_block};

use generator::{Generator, Value};
use sha::Sha256;

// The numbers that a key file knows the two generators by.
const CHACHA: u8 = 1;

const SHA: u8 = 2;

/// Generator 1: one ChaCha20 block, keyed with the parent's value, where counter and nonce are zero. Its first half goes to
/// the left child, its second half to the right child.
#[derive(Clone, Copy)]
pub struct ChaChaGenerator;

impl Generator for ChaChaGenerator {
    ghost meaning = { λ _. chacha_meaning };

    ghost lawful = { λ _.
        let long : (v : List ℕ) → length (child_block v) ≡ 64 = λ v. block_laws.long v 0 (zeros 12) in
        record {
          lengths = record { on_left = λ v _. length-take-le 32 (child_block v) (omega (arith, long v)); on_right = λ v _. length-drop 32 (child_block v) ∙ omega (arith, long v) };
          one_byte = Prim.search rules;
          bytes_left = λ v _. each_small _ (All-take (λ b. b < 256) 32 (child_block v) (block_laws.bytes v 0 (zeros 12)));
          bytes_right = λ v _. each_small _ (All-drop (λ b. b < 256) 32 (child_block v) (block_laws.bytes v 0 (zeros 12)));
        } };

    fn number(&self) -> u8 {
        CHACHA
    }

    fn expand(&self, value: &Value, left: &mut Value, right: &mut Value) {
        chacha::halves(value, 0, &[0; 12], left, right);
    }
}

/// Generator 2: SHA-256 of the parent's value and the byte 0 is the left child's value, and with the byte 1 the right
/// child's.
#[derive(Clone, Copy)]
pub struct ShaGenerator;

impl Generator for ShaGenerator {
    ghost meaning = { λ _. sha_meaning };

    ghost lawful = { λ _. record {
      lengths = record { on_left = λ v _. digest_long (v ++ 0 ∷ []); on_right = λ v _. digest_long (v ++ 1 ∷ []) };
      one_byte = Prim.search rules;
      bytes_left = λ v _. each_small _ (digest_bytes (v ++ 0 ∷ []));
      bytes_right = λ v _. each_small _ (digest_bytes (v ++ 1 ∷ []));
    } };

    fn number(&self) -> u8 {
        SHA
    }

    fn expand(&self, value: &Value, left: &mut Value, right: &mut Value) {
        hash_with(value, 0, left);
        hash_with(value, 1, right);
    }
}

// The digest of a value and one more byte.
fn hash_with(value: &Value, last: u8, out: &mut Value)
    ensures { out.new ≡ sha256 (value.now ++ last ∷ []) }
{
    let mut h = Sha256::new();
    h.update(value);
    h.update(&[last]);
    h.finish(out);
}
