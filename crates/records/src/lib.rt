// Records: one byte of kind, then a body whose length the kind fixes; what stands at any offset of any bytes.
#![tactic(auto)]

mod kind;

ghost use Rattle.std.specs.Prelude.{◌≡◌};
ghost use Rattle.rules.specs.Record.{body_length};
ghost use Rattle.records.specs.declared.NoRecord.TheVariants.{Unknown};
ghost use Rattle.records.specs.Found.{FoundAt, DueBy, byte_at, number_at};

pub use kind::{Kind, UnknownKind};
use rules::Fault;

// The body length of each possible kind byte, 255 for no such kind.
const BODY: [u8; 256] = [
    255, 6, // 01 HEAD
    3, // 02 START
    255, 255, 255, 255, 255, 255, 255, 255, 255, 255, 255, 255, 255, 2, // 10 INPUT contact
    2, // 11 COIL contact
    1, // 12 CONSTANT
    0, // 13 NOT
    0, // 14 AND
    0, // 15 OR
    255, 255, 255, 255, 255, 255, 255, 255, 255, 255, 2, // 20 RUNG
    0, // 21 CONDITION
    255, 255, 255, 255, 255, 255, 255, 255, 255, 255, 255, 255, 255, 0, // 2F END
    255, 255, 255, 255, 255, 255, 255, 255, 255, 255, 255, 255, 255, 255, 255, 255, 6, // 40 STEP
    0, // 41 QED
    255, 255, 255, 255, 255, 255, 255, 255, 255, 255, 255, 255, 255, 255, 0, // 50 SAFE
    0, // 51 INVARIANT
    255, 255, 255, 255, 255, 255, 255, 255, 255, 255, 255, 255, 255, 255, 0, // 60 TRACE
    2, // 61 INPUT-ON
    0, // 62 SCAN
    255, 255, 255, 255, 255, 255, 255, 255, 255, 255, 255, 255, 255, 255, 255, 255, 255, 255, 255,
    255, 255, 255, 255, 255, 255, 255, 255, 255, 255, 255, 255, 255, 255, 255, 255, 255, 255, 255,
    255, 255, 255, 255, 255, 255, 255, 255, 255, 255, 255, 255, 255, 255, 255, 255, 255, 255, 255,
    255, 255, 255, 255, 255, 255, 255, 255, 255, 255, 255, 255, 255, 255, 255, 255, 255, 255, 255,
    255, 255, 255, 255, 255, 255, 255, 255, 255, 255, 255, 255, 255, 255, 255, 255, 255, 255, 255,
    255, 255, 255, 255, 255, 255, 255, 255, 255, 255, 255, 255, 255, 255, 255, 255, 255, 255, 255,
    255, 255, 255, 255, 255, 255, 255, 255, 255, 255, 255, 255, 255, 255, 255, 255, 255, 255, 255,
    255, 255, 255, 255, 255, 255, 255, 255, 255, 255, 255, 255, 255, 255, 255, 255, 255, 255, 255,
    255, 255, 255, 255, 255,
];

pub fn body_length(byte: u8) -> u8
    ensures { result ≡ body_length byte }
{
    BODY[usize::from(byte)]
}

// A whole record: its kind, and where the next begins.
#[derive(Clone, Copy, Debug, PartialEq, Eq)]
pub struct Record {
    pub kind: Kind,
    pub next: usize,
}

// Why no whole record stands at an offset: nothing is left, no such kind, or a body that is cut.
#[derive(Clone, Copy, Debug, PartialEq, Eq)]
pub enum NoRecord {
    Nothing,
    Unknown,
    Cut(Kind),
}

impl From<UnknownKind> for NoRecord {
    ghost from_gives = { λ _ e. e ≡ Unknown };

    fn from(_e: UnknownKind) -> NoRecord {
        NoRecord::Unknown
    }
}

// What stands at an offset. Inlined, since each reader of records has one call of it in its loop.
#[inline(always)]
pub fn record_at(s: &[u8], at: usize) -> Result<Record, NoRecord>
    ensures { FoundAt s.now at result }
{
    if s.len() <= at {
        return Err(NoRecord::Nothing);
    }
    let kind = Kind::try_from(s[at])?;
    let body = usize::from(body_length(s[at]));
    let start = at + 1;
    if s.len() - start < body {
        return Err(NoRecord::Cut(kind));
    }
    Ok(Record {
        kind,
        next: start + body,
    })
}

// The byte `k` bytes into the record at an offset, 0 past the end.
pub fn byte_at(s: &[u8], at: usize, k: usize) -> u8
    ensures { result ≡ byte_at s.now at k }
{
    if s.len() <= at || s.len() - at <= k {
        return 0;
    }
    s[at + k]
}

// The number `k` bytes into the record at an offset: two bytes, low byte first.
pub fn number_at(s: &[u8], at: usize, k: usize) -> u16
    ensures { result ≡ number_at s.now at k }
{
    if s.len() <= k {
        return 0;
    }
    u16::from_le_bytes([byte_at(s, at, k), byte_at(s, at, k + 1)])
}

// The refusals that a reader shares: nothing is left or a body is cut, and a kind that is unknown or not allowed.
#[derive(Clone, Copy, Debug, PartialEq, Eq)]
pub struct Common {
    pub ends: Fault,
    pub strange: Fault,
}

impl Common {
    pub const SHEET: Common = Common {
        ends: Fault::SheetEnds,
        strange: Fault::SheetKind,
    };

    pub const CERTIFICATE: Common = Common {
        ends: Fault::CertificateEnds,
        strange: Fault::CertificateKind,
    };
}

// The whole record that is due at an offset where only some kinds are allowed.
#[tactic(auto, using(crate::proofs::DueLaws::due_cases))]
pub fn due_at<F: FnOnce(Kind) -> bool>(
    s: &[u8],
    at: usize,
    faults: Common,
    allowed: F,
) -> Result<Record, Fault>
    requires { (k : _) → F.pre allowed k }
    ensures { DueBy (F.post allowed) s.now at faults result }
{
    match record_at(s, at) {
        Ok(record) => {
            if allowed(record.kind) {
                Ok(record)
            } else {
                Err(faults.strange)
            }
        }
        Err(NoRecord::Nothing) => Err(faults.ends),
        Err(NoRecord::Unknown) => Err(faults.strange),
        Err(NoRecord::Cut(kind)) => {
            if allowed(kind) {
                Err(faults.ends)
            } else {
                Err(faults.strange)
            }
        }
    }
}
