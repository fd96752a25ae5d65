// A formula record: the range of what it names, the values it takes, and how large the formula may grow.
ghost use Rattle.std.specs.Prelude.{◌≡◌, List, ℕ, drop};
ghost use Rattle.rules.specs.Fault.{number_of};
ghost use Rattle.rules.specs.ReadFormula.{sheet_faults, certificate_faults, in_range, arity, entry};
ghost use Rattle.records.specs.Kinds.{byte_of};
ghost use Rattle.sheets.specs.Pile.{scope_of, fault_in, Pushes, Puts};

use super::{FormulaFault, Pile, Scope};
use records::Kind;
use rules::Fault;

// The refusal of a formula record of a sheet, and that of an invariant.
pub(crate) fn sheet_fault(fault: FormulaFault) -> Fault
    ensures { number_of result ≡ fault_in sheet_faults fault }
{
    match fault {
        FormulaFault::Range => Fault::SheetRange,
        FormulaFault::Operands => Fault::SheetOperands,
        FormulaFault::Depth => Fault::SheetDepth,
        FormulaFault::Records => Fault::SheetRecords,
    }
}

pub(crate) fn invariant_fault(fault: FormulaFault) -> Fault
    ensures { number_of result ≡ fault_in certificate_faults fault }
{
    match fault {
        FormulaFault::Range => Fault::CertificateRange,
        FormulaFault::Operands => Fault::InvariantOperands,
        FormulaFault::Depth => Fault::InvariantDepth,
        FormulaFault::Records => Fault::InvariantRecords,
    }
}

// Is what a formula record names in its range?
#[tactic(auto, unfolding(rules::specs::ReadFormula::in_range))]
pub(crate) fn in_range(b: Scope, s: &[u8], at: usize, kind: Kind) -> bool
    ensures { result ≡ in_range (scope_of b) (byte_of kind) (drop at s.now) }
{
    match kind {
        Kind::Input => usize::from(records::number_at(s, at, 1)) < b.inputs,
        Kind::Coil => usize::from(records::number_at(s, at, 1)) < b.coils,
        Kind::Constant => records::byte_at(s, at, 1) < 2,
        _ => true,
    }
}

// How many values a formula record takes.
#[tactic(auto, unfolding(rules::specs::ReadFormula::arity, rules::specs::ReadFormula::entry))]
pub(crate) fn taken(kind: Kind) -> usize
    ensures { (bs : List ℕ) → arity (entry (byte_of kind) bs) ≡ result }
{
    match kind {
        Kind::Input | Kind::Coil | Kind::Constant => 0,
        Kind::Not => 1,
        _ => 2,
    }
}

// A record that takes `taken` values and puts one.
#[tactic(auto, using(crate::proofs::PileLaws::push_cases))]
pub(crate) fn push(b: Scope, p: Pile, taken: usize) -> Result<Pile, FormulaFault>
    ensures { Pushes b p taken result }
{
    if p.depth < taken {
        return Err(FormulaFault::Operands);
    }
    let keep = p.depth - taken;
    if b.depth <= keep {
        return Err(FormulaFault::Depth);
    }
    if b.records <= p.count {
        return Err(FormulaFault::Records);
    }
    Ok(Pile {
        depth: keep + 1,
        count: p.count + 1,
    })
}

// The formula record of this kind at an offset.
#[inline(always)]
#[tactic(auto, using(crate::proofs::PileLaws::formula_record_cases))]
pub(crate) fn formula_record(
    b: Scope,
    p: Pile,
    s: &[u8],
    at: usize,
    kind: Kind,
) -> Result<Pile, FormulaFault>
    ensures { Puts b p (drop at s.now) (byte_of kind) result }
{
    if in_range(b, s, at, kind) {
        return push(b, p, taken(kind));
    }
    Err(FormulaFault::Range)
}
