// Reading a sheet, and the opening record and the invariant of a certificate: any bytes at all.
#![tactic(auto)]

mod certificate;
mod draft;
mod formula;

ghost use Rattle.std.specs.Prelude.{◌≡◌, ◌++◌, ◌≤◌, ◌<◌, length, drop, replicate};
ghost use Rattle.rules.specs.Walk.{reading};
ghost use Rattle.rules.specs.Certificate.{opening};
ghost use Rattle.sheets.specs.Answer.{ReadAs, Cleared, ended_as};
ghost use Rattle.sheets.specs.Certificate.{opening_kinds, opened_as, InvariantAs};

use reader::Reader;
use records::{Common, Kind};
use rules::{Fault, Limits, Refusal};

// What a formula may name, and how large it may grow.
#[derive(Clone, Copy, Debug, PartialEq, Eq)]
pub struct Scope {
    pub inputs: usize,
    pub coils: usize,
    pub depth: usize,
    pub records: usize,
}

// What the code keeps of a stack of formulas: its height, and how many formula records were read.
#[derive(Clone, Copy, Debug, PartialEq, Eq)]
pub struct Pile {
    pub depth: usize,
    pub count: usize,
}

// Why a formula record is refused, in the order in which they are tried.
#[derive(Clone, Copy, Debug, PartialEq, Eq)]
pub enum FormulaFault {
    Range,
    Operands,
    Depth,
    Records,
}

// Where the reading of a sheet stands.
#[derive(Clone, Copy, Debug, PartialEq, Eq)]
pub enum Spot {
    Head,
    Starts,
    Rungs,
    End,
}

// What the code keeps of a draft: where the reading stands, the offset of the next record, heights and counts, and the offsets
// past the last START and past the last RUNG.
#[derive(Clone, Copy, Debug, PartialEq, Eq)]
pub struct Kept {
    pub spot: Spot,
    pub at: usize,
    pub inputs: usize,
    pub coils: usize,
    pub promised: usize,
    pub least: usize,
    pub rungs: usize,
    pub depth: usize,
    pub count: usize,
    pub rungs_at: usize,
    pub condition_at: usize,
}

// What is kept of a good sheet: its numbers, and the offsets where its rungs and where its condition begin.
#[derive(Clone, Copy, Debug, PartialEq, Eq)]
pub struct Outline {
    pub inputs: usize,
    pub coils: usize,
    pub rungs: usize,
    pub rungs_at: usize,
    pub condition_at: usize,
}

// END is the last byte, else 11.
#[tactic(auto, using(crate::proofs::SheetLaws::ended_cases))]
fn ended(s: &[u8], d: Kept) -> Result<Outline, Refusal>
    requires { d.at < length s.now }
    ensures { result ≡ ended_as s.now d }
{
    let past = d.at + 1;
    if past < s.len() {
        return Err(Fault::AfterSheet.at(past));
    }
    Ok(Outline {
        inputs: d.inputs,
        coils: d.coils,
        rungs: d.rungs,
        rungs_at: d.rungs_at,
        condition_at: d.condition_at,
    })
}

// The records of a sheet, one after the other, where no coil is marked yet.
#[tactic(auto, using(crate::proofs::SheetLaws::read_records_cases))]
fn read_records(l: Limits, s: &[u8], marks: &mut [u16]) -> Result<Outline, Refusal>
    requires { Cleared l marks.old }
    ensures { ReadAs l s.now marks.old marks.new result }
{
    let mut d = Kept {
        spot: Spot::Head,
        at: 0,
        inputs: 0,
        coils: 0,
        promised: 0,
        least: 0,
        rungs: 0,
        depth: 0,
        count: 0,
        rungs_at: 0,
        condition_at: 0,
    };
    // Which kinds may follow is known only from the record before, so no iterator over the records serves.
    loop {
        match draft::one_record(l, s, marks, d) {
            Ok(Some(e)) => d = e,
            Ok(None) => return ended(s, d),
            Err(fault) => return Err(fault.at(d.at)),
        }
    }
}

// Any bytes: the sheet that they are, or the first fault. The places for the coils' marks are cleared first.
#[tactic(auto, using(crate::proofs::SheetLaws::read_sheet_cases))]
pub fn read_sheet(l: Limits, s: &[u8], marks: &mut [u16]) -> Result<Outline, Refusal>
    requires { l.coils ≤ length marks.old }
    ensures { ReadAs l s.now marks.old marks.new result }
{
    base::clear(marks, l.coils);
    read_records(l, s, marks)
}

// Where INVARIANT stands, and how many formula records are before it.
#[derive(Clone, Copy, Debug, PartialEq, Eq)]
pub struct Invariant {
    pub end: usize,
    pub size: usize,
}

// What the code keeps of an invariant: the stack, and the offset of the next record.
#[derive(Clone, Copy, Debug, PartialEq, Eq)]
pub struct Part {
    pub pile: Pile,
    pub at: usize,
}

// The invariant of a certificate whose first record has been read, for a sheet with so many coils.
#[tactic(auto, using(crate::proofs::InvariantLaws::read_invariant_cases))]
pub fn read_invariant(l: Limits, coils: usize, c: &[u8]) -> Result<Invariant, Refusal>
    ensures { InvariantAs l coils c.now result }
{
    let mut p = Part {
        pile: Pile { depth: 0, count: 0 },
        at: 1,
    };
    // As in a sheet, the record before says whether another may follow.
    loop {
        match certificate::part_record(l, coils, c, p) {
            Ok(Some(q)) => p = q,
            Ok(None) => {
                return Ok(Invariant {
                    end: p.at,
                    size: p.pile.count,
                });
            }
            Err(fault) => return Err(fault.at(p.at)),
        }
    }
}

// What a certificate opens with.
#[derive(Clone, Copy, Debug, PartialEq, Eq)]
pub enum Opening {
    Safe,
    Trace,
}

// SAFE, or TRACE where a trace may stand too.
pub fn open(c: &[u8], traces: bool) -> Result<Opening, Refusal>
    ensures { opened_as result ≡ reading (opening (opening_kinds traces)) c.now 0 tt }
{
    let whole = Reader::new(c).due(Common::CERTIFICATE, |kind| certificate::opens(kind, traces))?;
    match whole.kind {
        Kind::Safe => Ok(Opening::Safe),
        _ => Ok(Opening::Trace),
    }
}
