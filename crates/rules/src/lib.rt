// The rules: the sheet's own type with its limits, and the answers. The definitions are in specs/.
#![tactic(auto)]

mod refusals;

ghost use Rattle.std.specs.Prelude.{◌≡◌};
ghost use Rattle.rules.specs.Head.{base_limits, headed};
ghost use Rattle.rules.specs.Verdict.{NamesSet};
ghost use Rattle.rules.specs.Samples.{Hold};

pub use refusals::{Fault, Refusal};

// The limits that a sheet, a certificate and a trace keep to, and the workspace they are checked in.
#[derive(Clone, Copy, Debug, PartialEq, Eq)]
pub struct Limits {
    pub inputs: usize,
    pub coils: usize,
    pub rungs: usize,
    pub records: usize,
    pub invariant: usize,
    pub depth: usize,
    pub steps: usize,
    pub width: usize,
    pub scans: usize,
    pub places: usize,
}

// A sheet's head that passed its range test.
#[derive(Clone, Copy, Debug, PartialEq, Eq)]
pub struct Sheet {
    pub inputs: usize,
    pub coils: usize,
    pub rungs: usize,
}

// What the checker answers where it does not refuse.
#[derive(Clone, Copy, Debug, PartialEq, Eq)]
pub enum Answer {
    Accepted,
    Confirmed { scan: usize },
}

// The three clause sets, and so the three refutations, in their order.
#[derive(Clone, Copy, Debug, PartialEq, Eq)]
pub enum Set {
    Start,
    Keep,
    Safe,
}

impl TryFrom<u32> for Set {
    type Error = Fault;

    ghost try_from_gives = { NamesSet };

    fn try_from(number: u32) -> Result<Self, Fault> {
        match number {
            1 => Ok(Set::Start),
            2 => Ok(Set::Keep),
            3 => Ok(Set::Safe),
            _ => Err(Fault::NoSet),
        }
    }
}

impl Sheet {
    // inputs of a sheet
    pub const INPUTS: usize = 256;

    // coils of a sheet
    pub const COILS: usize = 256;

    // rungs of a sheet
    pub const RUNGS: usize = 256;

    // formula records in a sheet
    pub const RECORDS: usize = 1024;

    // formula records in an invariant
    pub const INVARIANT: usize = 256;

    // values on the formula stack
    pub const DEPTH: usize = 32;

    // steps in one refutation
    pub const STEPS: usize = 512;

    // literals in a derived clause
    pub const WIDTH: usize = 24;

    // scans in a trace
    pub const SCANS: usize = 64;

    // places of 16 bits in the workspace
    pub const PLACES: usize = 32768;

    // All limits, as one value.
    pub fn limits() -> Limits
        ensures { result ≡ base_limits }
    {
        Limits {
            inputs: Sheet::INPUTS,
            coils: Sheet::COILS,
            rungs: Sheet::RUNGS,
            records: Sheet::RECORDS,
            invariant: Sheet::INVARIANT,
            depth: Sheet::DEPTH,
            steps: Sheet::STEPS,
            width: Sheet::WIDTH,
            scans: Sheet::SCANS,
            places: Sheet::PLACES,
        }
    }

    // A head that passes its range test.
    #[tactic(auto, unfolding(crate::specs::Head::head_fits))]
    pub fn new(l: Limits, inputs: usize, coils: usize, rungs: usize) -> Option<Sheet>
        ensures { result ≡ headed l inputs coils rungs }
    {
        if l.inputs < inputs || coils < 1 || l.coils < coils {
            return None;
        }
        if coils < rungs || l.rungs < rungs {
            return None;
        }
        Some(Sheet {
            inputs,
            coils,
            rungs,
        })
    }
}

// Nothing to run: the rules, at the sheet's own limits, answer every sample as the bench did.
pub fn samples_hold()
    ensures { Hold base_limits }
{}
