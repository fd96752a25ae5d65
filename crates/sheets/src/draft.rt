// One record of a sheet: what each kind does to what the code keeps of a draft.
ghost use Rattle.std.specs.Prelude.{◌≡◌};
ghost use Rattle.rules.specs.Record.{one_of};
ghost use Rattle.rules.specs.ReadSheet.{Spot.at_rungs, spot_kinds};
ghost use Rattle.records.specs.Kinds.{byte_of};
ghost use Rattle.sheets.specs.Draft.{spot_of, Fit, HeadReads, StartReads, EntryReads, RungReads, ConditionReads, WholeReads, Answers};

use super::formula::{formula_record, sheet_fault};
use super::{Kept, Pile, Scope, Spot};
use reader::Reader;
use records::{Common, Kind, Record};
use rules::{Fault, Limits, Sheet};

// Between the starts and CONDITION: RUNG, CONDITION and the formula records.
#[tactic(auto, unfolding(rules::specs::ReadSheet::spot_kinds))]
pub(crate) fn among_rungs(kind: Kind) -> bool
    ensures { result ≡ one_of (spot_kinds at_rungs) (byte_of kind) }
{
    match kind {
        Kind::Rung | Kind::Condition => true,
        Kind::Input | Kind::Coil | Kind::Constant => true,
        Kind::Not | Kind::And | Kind::Or => true,
        _ => false,
    }
}

// Is a kind allowed at this spot? Among the starts, START too.
#[tactic(auto, unfolding(rules::specs::ReadSheet::spot_kinds))]
pub(crate) fn allowed(spot: Spot, kind: Kind) -> bool
    ensures { result ≡ one_of (spot_kinds (spot_of spot)) (byte_of kind) }
{
    match spot {
        Spot::Head => kind == Kind::Head,
        Spot::Starts => kind == Kind::Start || among_rungs(kind),
        Spot::Rungs => among_rungs(kind),
        Spot::End => kind == Kind::End,
    }
}

// HEAD: 4.
#[tactic(auto, using(crate::proofs::StepLaws::read_head_cases))]
pub(crate) fn read_head(l: Limits, s: &[u8], d: Kept, next: usize) -> Result<Option<Kept>, Fault>
    ensures { HeadReads l s.now d next result }
{
    let inputs = usize::from(records::number_at(s, d.at, 1));
    let coils = usize::from(records::number_at(s, d.at, 3));
    let rungs = usize::from(records::number_at(s, d.at, 5));
    let Some(h) = Sheet::new(l, inputs, coils, rungs) else {
        return Err(Fault::SheetRange);
    };
    Ok(Some(Kept {
        spot: Spot::Starts,
        at: next,
        inputs: h.inputs,
        coils: h.coils,
        promised: h.rungs,
        least: 0,
        rungs: 0,
        depth: 0,
        count: 0,
        rungs_at: next,
        condition_at: next,
    }))
}

// START: 4, 5.
#[tactic(auto, using(crate::proofs::StepLaws::read_start_cases))]
pub(crate) fn read_start(l: Limits, s: &[u8], d: Kept, next: usize) -> Result<Option<Kept>, Fault>
    ensures { StartReads l s.now d next result }
{
    let coil = usize::from(records::number_at(s, d.at, 1));
    let value = records::byte_at(s, d.at, 3);
    if d.coils <= coil || 2 <= value {
        return Err(Fault::SheetRange);
    }
    if coil < d.least {
        return Err(Fault::StartOrder);
    }
    Ok(Some(Kept {
        spot: Spot::Starts,
        at: next,
        least: coil + 1,
        rungs_at: next,
        condition_at: next,
        ..d
    }))
}

// A formula record: 4, 6, 7, 8.
#[tactic(auto, using(crate::proofs::StepLaws::read_entry_cases))]
pub(crate) fn read_entry(l: Limits, s: &[u8], d: Kept, whole: Record) -> Result<Option<Kept>, Fault>
    ensures { EntryReads l s.now d whole.next (byte_of whole.kind) result }
{
    let b = Scope {
        inputs: d.inputs,
        coils: d.coils,
        depth: l.depth,
        records: l.records,
    };
    let p = Pile {
        depth: d.depth,
        count: d.count,
    };
    // Not `map_err(sheet_fault)?`: its proof is left with the fact that the function was called, and did not close.
    match formula_record(b, p, s, d.at, whole.kind) {
        Ok(q) => Ok(Some(Kept {
            spot: Spot::Rungs,
            at: whole.next,
            depth: q.depth,
            count: q.count,
            ..d
        })),
        Err(fault) => Err(sheet_fault(fault)),
    }
}

// RUNG: 4, 6, 9, 10.
#[tactic(auto, using(crate::proofs::RungLaws::read_rung_cases))]
pub(crate) fn read_rung(
    l: Limits,
    s: &[u8],
    marks: &mut [u16],
    d: Kept,
    next: usize,
) -> Result<Option<Kept>, Fault>
    requires { Fit l marks.old d }
    ensures { RungReads l s.now marks.old marks.new d next result }
{
    let coil = usize::from(records::number_at(s, d.at, 1));
    if d.coils <= coil {
        return Err(Fault::SheetRange);
    }
    if d.depth != 1 {
        return Err(Fault::SheetOperands);
    }
    if marks[coil] != 0 {
        return Err(Fault::CoilTwice);
    }
    if d.promised <= d.rungs {
        return Err(Fault::RungCount);
    }
    marks[coil] = 1;
    Ok(Some(Kept {
        spot: Spot::Rungs,
        at: next,
        rungs: d.rungs + 1,
        depth: 0, // the rung has taken its value
        condition_at: next, // and another formula begins
        ..d
    }))
}

// CONDITION: 6, 10.
#[tactic(auto, using(crate::proofs::RungLaws::read_condition_cases))]
pub(crate) fn read_condition(l: Limits, d: Kept, next: usize) -> Result<Option<Kept>, Fault>
    ensures { ConditionReads l d next result }
{
    if d.depth != 1 {
        return Err(Fault::SheetOperands);
    }
    if d.rungs < d.promised {
        return Err(Fault::RungCount);
    }
    Ok(Some(Kept {
        spot: Spot::End,
        at: next,
        depth: 0,
        ..d
    }))
}

// A whole record of a kind that is allowed at its spot.
#[tactic(auto, using(crate::proofs::RecordLaws::whole_record_cases))]
pub(crate) fn whole_record(
    l: Limits,
    s: &[u8],
    marks: &mut [u16],
    d: Kept,
    whole: Record,
) -> Result<Option<Kept>, Fault>
    requires { Fit l marks.old d }
    ensures { WholeReads l s.now marks.old marks.new d whole result }
{
    match whole.kind {
        Kind::Head => read_head(l, s, d, whole.next),
        Kind::Start => read_start(l, s, d, whole.next),
        Kind::Rung => read_rung(l, s, marks, d, whole.next),
        Kind::Condition => read_condition(l, d, whole.next),
        Kind::End => Ok(None),
        _ => read_entry(l, s, d, whole),
    }
}

// The record at the draft's place.
pub(crate) fn one_record(
    l: Limits,
    s: &[u8],
    marks: &mut [u16],
    d: Kept,
) -> Result<Option<Kept>, Fault>
    requires { Fit l marks.old d }
    ensures { Answers l s.now marks.old marks.new d result }
{
    let reader = Reader { src: s, at: d.at };
    let whole = reader.due(Common::SHEET, |kind| allowed(d.spot, kind))?;
    whole_record(l, s, marks, d, whole)
}
