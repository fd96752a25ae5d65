// The clause sets of a good sheet and an invariant, three places a clause.
#![tactic(auto)]

mod formula;
mod gates;
mod rungs;
pub mod sets;
mod starts;
mod translator;

ghost use Rattle.std.specs.Prelude.{◌≡◌};
ghost use Rattle.rules.specs.Head.{base_limits};
ghost use Rattle.clauses.specs.Translated.{Fitting, layout_of, Translated};

use rules::{Refusal, Set, Sheet};
use sheets::Outline;
pub use starts::Begun;

// The variables of the coils, and that of the first input.
#[derive(Clone, Copy, Debug)]
pub struct Variables<'a> {
    pub coils: &'a [u16],
    pub inputs: u16,
}

// How far clauses are written: the place after the records, the next record's variable, and the number of the next clause.
#[derive(Clone, Copy, Debug, PartialEq, Eq)]
pub struct Wrote {
    pub at: usize,
    pub g: u16,
    pub n: usize,
}

// What a sheet's clauses start from: its inputs, coils and rungs, and the place of its first rung.
#[derive(Clone, Copy, Debug, PartialEq, Eq)]
pub struct Layout {
    pub inputs: u16,
    pub coils: u16,
    pub rungs: usize,
    pub at: usize,
}

impl Layout {
    // What a good sheet's clauses start from.
    pub fn of(h: Outline) -> Layout
        requires { Fitting h }
        ensures { result ≡ layout_of h }
    {
        Layout {
            inputs: h.inputs as u16,
            coils: h.coils as u16,
            rungs: h.rungs,
            at: h.rungs_at,
        }
    }
}

// The translator: any set number, any bytes, any room. The set's clauses, three places a clause, or the first fault and nothing written.
#[tactic(auto, using(crate::proofs::TranslateLaws::base_slight))]
pub fn translate(
    set: u32,
    sheet: &[u8],
    certificate: &[u8],
    room: &mut [u16],
) -> Result<usize, Refusal>
    ensures { Translated base_limits set sheet.now certificate.now room.old room.new result }
{
    let set = Set::try_from(set)?;
    translator::translate_sheet(Sheet::limits(), set, sheet, certificate, room)
}
