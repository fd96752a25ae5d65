// One unit clause for each coil's start value, in coil order.
ghost use Rattle.std.specs.Prelude.{◌≡◌, ◌≤◌, length, drop, eqb};
ghost use Rattle.rules.specs.Kind.{START};
ghost use Rattle.records.specs.Found.{byte_at};
ghost use Rattle.clauses.specs.Started.{start_at, StartsAt, StartsWritten};

use super::gates::unit;
use records::Kind;

// A coil's start value, and the place of the START record that comes next.
#[derive(Clone, Copy, Debug, PartialEq, Eq)]
pub struct Begun {
    pub on: bool,
    pub at: usize,
}

// Does a START record stand at a place?
#[tactic(auto, using(crate::proofs::StartLaws::unknown_byte))]
fn is_start(s: &[u8], at: usize) -> bool
    ensures { result ≡ eqb (byte_at s.now at 0) START }
{
    let Ok(kind) = Kind::try_from(records::byte_at(s, at, 0)) else {
        return false;
    };
    kind == Kind::Start
}

// A coil's start value, from the START record at a place if it is that coil's, and the place of the START that comes next.
#[tactic(auto, using(crate::proofs::StartLaws::start_at_cases))]
fn start_at(s: &[u8], at: usize, coil: u16) -> Begun
    requires { at ≤ length s.now }
    ensures { result ≡ start_at (drop at s.now) at coil }
{
    if !is_start(s, at) || records::number_at(s, at, 1) != coil {
        return Begun { on: false, at };
    }
    Begun {
        on: records::byte_at(s, at, 3) == 1,
        at: at + 4,
    }
}

// The unit clauses of a sheet's start values, the first clauses of their set.
#[tactic(auto, using(crate::proofs::StartLaws::start_cases))]
pub(crate) fn start_units(s: &[u8], coils: u16, out: &mut [u16]) -> usize
    requires { StartsAt s.now coils }
    ensures { StartsWritten s.now coils out.old out.new result }
{
    let mut at: usize = 7;
    for c in 0..coils {
        let b = start_at(s, at, c);
        at = b.at;
        unit(out, usize::from(c), c + 1, b.on);
    }
    usize::from(coils)
}
