//! The state of a TLS session that a ticket carries, and its record.
//!
//! A record is the suite (2 bytes), the time of issue (8), the lifetime (4), the age add (4), the early data
//! limit (4), the secret, the name's length (1) and the name, with nothing after it. Numbers are big-endian.
#![tactic(auto)]

ghost use Rattle.std.specs.Prelude.{◌≡◌, ◌+◌, ◌≤◌, length, take, IfOk, Some, Ok, Decides};
ghost use Rattle.octets.specs.Buffers.{pasted, is_blank};
ghost use Rattle.session.specs.Limits.{max_secret, secret_length, max_name, max_lifetime, min_record, max_record};
ghost use Rattle.session.specs.Suites.{suite_number, suite_of, Decodes};
ghost use Rattle.session.specs.Records.{lifetime_fits, fields_fit, Fits, Typed, encode_of, laid_out, record_suite, is_record, IsRecord, read_of, decode_of, written_of, buffer_of};
ghost use Rattle.session.specs.Laws.{RecordLaws, LifetimeExamples};

use octets::{clear, get, is_blank, put};
use refusal::Refusal;

/// The bytes of a session's secret.
pub const SECRET_LENGTH: usize = 32;

/// The most bytes of a session's name.
pub const MAX_NAME: usize = 32;

/// The longest lifetime in seconds: seven days.
pub const MAX_LIFETIME: u32 = 604_800;

// Where the time of issue, the lifetime, the age add, the early data limit and the secret begin in a record.
const TIME_AT: usize = 2;

const LIFETIME_AT: usize = TIME_AT + 8;

const AGE_ADD_AT: usize = LIFETIME_AT + 4;

const EARLY_DATA_AT: usize = AGE_ADD_AT + 4;

const SECRET_AT: usize = EARLY_DATA_AT + 4;

/// The bytes of the shortest record.
pub const MIN_RECORD: usize = SECRET_AT + SECRET_LENGTH + 1;

/// The bytes of the longest record.
pub const MAX_RECORD: usize = SECRET_AT + SECRET_LENGTH + 1 + MAX_NAME;

/// A cipher suite of TLS 1.3, with its number there.
#[derive(Clone, Copy, PartialEq, Eq, Debug)]
pub enum Suite {
    Aes128GcmSha256 = 0x1301,
    Aes256GcmSha384 = 0x1302,
    ChaCha20Poly1305Sha256 = 0x1303,
}

/// A number that no suite has.
#[derive(Clone, Copy, PartialEq, Eq, Debug)]
pub struct UnknownSuite(pub u16);

impl From<Suite> for u16 {
    ghost from_gives = { λ suite number. number ≡ suite_number suite };

    fn from(suite: Suite) -> u16 {
        suite as u16
    }
}

impl TryFrom<u16> for Suite {
    type Error = UnknownSuite;

    ghost try_from_gives = { Decodes };

    fn try_from(number: u16) -> Result<Suite, UnknownSuite> {
        match number {
            0x1301 => Ok(Suite::Aes128GcmSha256),
            0x1302 => Ok(Suite::Aes256GcmSha384),
            0x1303 => Ok(Suite::ChaCha20Poly1305Sha256),
            _ => Err(UnknownSuite(number)),
        }
    }
}

impl Suite {
    /// The bytes of the secret of a session under the suite.
    pub fn secret_length(self) -> usize
        ensures { result ≡ secret_length self }
    {
        SECRET_LENGTH // whatever the suite
    }
}

/// What a server has to know to resume a session.
#[derive(Clone, Copy)]
pub struct SessionState {
    pub suite: Suite,
    /// when the ticket was issued, in seconds
    pub issued_at: u64,
    /// how long the ticket may be used, in seconds
    pub lifetime: u32,
    /// what the client adds to the age that it tells
    pub age_add: u32,
    /// how many bytes of early data the client may send
    pub early_data_limit: u32,
    pub secret: [u8; SECRET_LENGTH],
    /// the name, from the start; zeros after it
    // a row with a length beside: memory is fixed, and the fields may hold anything, which `fits` judges
    pub name: [u8; MAX_NAME],
    pub name_length: u8,
}

// Whether a lifetime is one that a record may hold.
fn lifetime_fits(seconds: u32) -> bool
    ensures { result ≡ lifetime_fits seconds }
{
    (1..=MAX_LIFETIME).contains(&seconds)
}

// Copies a part into a row at a place.
fn put_part(row: &mut [u8], at: usize, part: &[u8])
    requires { at + length part.now ≤ length row.old }
    ensures { row.new ≡ pasted row.old at part.now (length part.now) }
{
    row[at..at + part.len()].copy_from_slice(part);
}

// Whether bytes of at least the shortest record's length are laid out as a record of the suite.
#[tactic(auto, unfolding(crate::specs::Records::laid_out))]
fn is_laid_out(suite: Suite, bytes: &[u8]) -> bool
    requires { min_record ≤ length bytes.now }
    ensures { result ≡ laid_out suite bytes.now }
{
    let name_at = SECRET_AT + suite.secret_length();
    if bytes.len() <= name_at {
        return false;
    }
    let name_length = bytes[name_at] as usize;
    name_length <= MAX_NAME
        && lifetime_fits(get(bytes, LIFETIME_AT))
        && bytes.len() == name_at + 1 + name_length
}

// The suite of a record; none where the bytes are no record.
#[tactic(auto, unfolding(crate::specs::Records::record_suite))]
fn record_suite(bytes: &[u8]) -> Option<Suite>
    ensures { result ≡ record_suite bytes.now }
{
    if bytes.len() < MIN_RECORD {
        return None;
    }
    let number: u16 = get(bytes, 0);
    let suite = Suite::try_from(number).ok()?;
    is_laid_out(suite, bytes).then_some(suite)
}

/// Whether the bytes are the record of some session state.
#[tactic(auto, using(crate::proofs::Trip::tells), unfolding(crate::specs::Records::is_record))]
pub fn is_record(bytes: &[u8]) -> bool
    ensures value { result ≡ is_record bytes.now }
    ensures decides { Decides result (IsRecord bytes.now) }
{
    record_suite(bytes).is_some()
}

// The state in a record of a suite.
#[tactic(auto, using(crate::proofs::Laid::long_laid), unfolding(crate::specs::Records::read_of))]
fn state_of(suite: Suite, bytes: &[u8]) -> SessionState
    requires { record_suite bytes.now ≡ Some suite }
    ensures { result ≡ read_of suite bytes.now }
{
    let name_at = SECRET_AT + suite.secret_length();
    let secret = &bytes[SECRET_AT..name_at];
    let name = &bytes[name_at + 1..];
    let mut state = SessionState {
        suite,
        issued_at: get(bytes, TIME_AT),
        lifetime: get(bytes, LIFETIME_AT),
        age_add: get(bytes, AGE_ADD_AT),
        early_data_limit: get(bytes, EARLY_DATA_AT),
        secret: [0; SECRET_LENGTH],
        name: [0; MAX_NAME],
        name_length: bytes[name_at],
    };
    put_part(&mut state.secret, 0, secret);
    put_part(&mut state.name, 0, name);
    state
}

/// The state that a record holds. All other bytes are refused.
// No TryFrom: it is the other way of `write`, and where TryFrom has one member for its promise this has three clauses.
#[tactic(auto, using(crate::proofs::Trip::suited), unfolding(crate::specs::Records::decode_of))]
pub fn read(bytes: &[u8]) -> Result<SessionState, Refusal>
    ensures value { result ≡ decode_of bytes.now }
    ensures forth { IfOk result (λ s. Typed s × Fits s × (encode_of s ≡ bytes.now)) }
    ensures back { (s : SessionState) → Typed s → Fits s → encode_of s ≡ bytes.now → result ≡ Ok s }
{
    let suite = record_suite(bytes).ok_or(Refusal::NotARecord)?;
    Ok(state_of(suite, bytes))
}

impl SessionState {
    /// Whether the fields make a record.
    #[tactic(auto, using(crate::proofs::Fitting::fields_fit_is), unfolding(crate::specs::Records::fields_fit))]
    pub fn fits(&self) -> bool
        ensures value { result ≡ fields_fit self.now }
        ensures decides { Decides result (Fits self.now) }
    {
        let n = self.name_length as usize;
        n <= MAX_NAME && lifetime_fits(self.lifetime) && is_blank(&self.name[n..])
    }

    /// Writes the record from the buffer's start, with zeros after it, and answers its length.
    /// A buffer shorter than the longest record is refused, then fields that make no record; the buffer then holds zeros.
    #[tactic(auto, unfolding(crate::specs::Records::written_of, crate::specs::Records::buffer_of))]
    pub fn write(&self, out: &mut [u8]) -> Result<usize, Refusal>
        ensures value { result ≡ written_of self.now (length out.old) }
        ensures out { out.new ≡ buffer_of self.now (length out.old) }
        ensures back { IfOk result (λ n. decode_of (take n out.new) ≡ Ok self.now) }
    {
        clear(out);
        if out.len() < MAX_RECORD {
            return Err(Refusal::ShortBuffer);
        }
        if !self.fits() {
            return Err(Refusal::NotARecord);
        }
        put(out, 0, u16::from(self.suite));
        put(out, TIME_AT, self.issued_at);
        put(out, LIFETIME_AT, self.lifetime);
        put(out, AGE_ADD_AT, self.age_add);
        put(out, EARLY_DATA_AT, self.early_data_limit);
        put_part(out, SECRET_AT, &self.secret);
        let name_at = SECRET_AT + self.suite.secret_length();
        out[name_at] = self.name_length;
        let n = self.name_length as usize;
        put_part(out, name_at + 1, &self.name[0..n]);
        Ok(name_at + 1 + n)
    }
}

/// The lengths of a record and of its parts, and the longest lifetime.
pub fn limits_stand()
    ensures least { MIN_RECORD ≡ min_record }
    ensures most { MAX_RECORD ≡ max_record }
    ensures secret { SECRET_LENGTH ≡ max_secret }
    ensures name { MAX_NAME ≡ max_name }
    ensures lifetime { MAX_LIFETIME ≡ max_lifetime }
{}

/// States and records determine each other, and the lengths of a record.
pub fn records_stand()
    ensures laws { RecordLaws }
    ensures examples { LifetimeExamples }
{}
