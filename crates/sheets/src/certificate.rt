// One record of a certificate's invariant, and the kinds that it may open with.
ghost use Rattle.std.specs.Prelude.{◌≡◌};
ghost use Rattle.rules.specs.Record.{one_of};
ghost use Rattle.records.specs.Kinds.{byte_of};
ghost use Rattle.sheets.specs.Certificate.{opening_kinds, invariant_kinds, PartReads, PartAnswers};

use super::formula::{formula_record, invariant_fault};
use super::{Part, Scope};
use reader::Reader;
use records::{Common, Kind, Record};
use rules::{Fault, Limits};

// May a certificate open with this kind?
pub(crate) fn opens(kind: Kind, traces: bool) -> bool
    ensures { result ≡ one_of (opening_kinds traces) (byte_of kind) }
{
    kind == Kind::Safe || traces && kind == Kind::Trace
}

// INVARIANT, and the formula records but for INPUT.
pub(crate) fn among_parts(kind: Kind) -> bool
    ensures { result ≡ one_of invariant_kinds (byte_of kind) }
{
    match kind {
        Kind::Invariant => true,
        Kind::Coil | Kind::Constant => true,
        Kind::Not | Kind::And | Kind::Or => true,
        _ => false,
    }
}

// INVARIANT: 15. A formula record: 14, 15, 16, 17.
#[tactic(auto, using(crate::proofs::InvariantLaws::read_part_cases))]
pub(crate) fn read_part(
    l: Limits,
    coils: usize,
    c: &[u8],
    p: Part,
    whole: Record,
) -> Result<Option<Part>, Fault>
    ensures { PartReads l coils c.now p whole result }
{
    if let Kind::Invariant = whole.kind {
        if p.pile.depth != 1 {
            return Err(Fault::InvariantOperands);
        }
        return Ok(None);
    }
    let b = Scope {
        inputs: 0,
        coils,
        depth: l.depth,
        records: l.invariant,
    };
    match formula_record(b, p.pile, c, p.at, whole.kind) {
        Ok(pile) => Ok(Some(Part {
            pile,
            at: whole.next,
        })),
        Err(fault) => Err(invariant_fault(fault)),
    }
}

// The record at an offset.
pub(crate) fn part_record(l: Limits, coils: usize, c: &[u8], p: Part) -> Result<Option<Part>, Fault>
    ensures { PartAnswers l coils c.now p result }
{
    let reader = Reader { src: c, at: p.at };
    let whole = reader.due(Common::CERTIFICATE, |kind| among_parts(kind))?;
    read_part(l, coils, c, p, whole)
}
