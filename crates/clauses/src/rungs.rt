// The clauses of a sheet's rungs.
ghost use Rattle.std.specs.Prelude.{◌≡◌, set};
ghost use Rattle.records.specs.Found.{number_at};
ghost use Rattle.clauses.specs.Runged.{CoilAt, RungsAt, RungsWritten};

use super::formula::formula_clauses;
use super::{Variables, Wrote};

// The RUNG record at a place: its coil's variable is v from there on.
fn close(s: &[u8], at: usize, map: &mut [u16], v: u16)
    requires { CoilAt s.now at map.old }
    ensures { map.new ≡ set map.old (number_at s.now at 1) v }
{
    map[usize::from(records::number_at(s, at, 1))] = v;
}

// The clauses of so many rungs; the map holds the coils' variables, before and after.
#[tactic(auto, using(crate::proofs::RungLaws::rung_cases))]
pub(crate) fn rung_clauses(
    s: &[u8],
    rungs: usize,
    map: &mut [u16],
    inputs: u16,
    from: Wrote,
    stack: &mut [u16],
    out: &mut [u16],
) -> Wrote
    requires { RungsAt s.now from.at rungs map.old inputs from.g stack.old from.n }
    ensures { RungsWritten s.now from.at rungs map.old inputs from.g stack.old out.old from.n map.new out.new result }
{
    let mut w = from;
    for _ in 0..rungs {
        w = formula_clauses(s, Variables { coils: map, inputs }, w, stack, out);
        close(s, w.at, map, w.g - 1);
        w.at += 3;
    }
    w
}
