// The three clause sets of a good sheet and an invariant.
ghost use Rattle.std.specs.Prelude.{◌≡◌, ◌<◌, ◌+◌, ◌/◌, length};
ghost use Rattle.rules.specs.Certificate.{Which.start, Which.keep, Which.safe};
ghost use Rattle.rules.specs.Verdict.{which_of};
ghost use Rattle.clauses.specs.Formed.{FormulaAt, TopWritten, FormulaPassed};
ghost use Rattle.clauses.specs.Runged.{RungsAt, RungsWritten};
ghost use Rattle.clauses.specs.Sets.{Numbered, Fresh, ClauseSetAt, ClauseSetWritten, SetOfNumber, SetThere, SetWritten};

use super::formula::formula_clauses;
use super::gates::unit;
use super::rungs::rung_clauses;
use super::starts::start_units;
use super::{Layout, Variables, Wrote};
use rules::{Set, Sheet};

// Coil c has variable c + 1 before the scan.
#[tactic(auto, using(crate::proofs::TopLaws::number_cases))]
fn number_coils(map: &mut [u16])
    requires { length map.old < 32768 }
    ensures { Numbered map.new }
{
    for (i, variable) in map.iter_mut().enumerate() {
        *variable = (i + 1) as u16;
    }
}

// The clauses of the sheet's rungs, from number n on.
fn ladder(
    s: &[u8],
    h: Layout,
    map: &mut [u16],
    stack: &mut [u16],
    out: &mut [u16],
    n: usize,
) -> Wrote
    requires { RungsAt s.now h.at h.rungs map.old (h.coils + 1) (h.coils + 1 + h.inputs) stack.old n }
    ensures { RungsWritten s.now h.at h.rungs map.old (h.coils + 1) (h.coils + 1 + h.inputs) stack.old out.old n map.new out.new result }
{
    let inputs = h.coils + 1;
    let from = Wrote {
        at: h.at,
        g: inputs + h.inputs,
        n,
    };
    rung_clauses(s, h.rungs, map, inputs, from, stack, out)
}

// The clauses of a formula, then the unit clause of its top, plain or negated.
#[tactic(auto, using(crate::proofs::TopLaws::top_cases))]
fn formula_top(
    s: &[u8],
    vars: Variables,
    from: Wrote,
    stack: &mut [u16],
    out: &mut [u16],
    on: bool,
) -> Wrote
    requires { FormulaAt s.now from.at vars.coils.now vars.inputs from.g stack.old from.n }
    ensures { TopWritten on s.now from.at vars.entry.coils.now vars.entry.inputs from.g stack.old out.old from.n out.new result }
{
    let w = formula_clauses(s, vars, from, stack, out);
    Wrote {
        n: unit(out, w.n, w.g - 1, on),
        ..w
    }
}

// The variable after a formula's records. No clause is written: the first would be one past the room.
#[tactic(auto, using(crate::proofs::TopLaws::top_cases))]
fn formula_end(s: &[u8], vars: Variables, from: Wrote, stack: &mut [u16], out: &mut [u16]) -> u16
    requires { FormulaAt s.now from.at vars.coils.now vars.inputs from.g stack.old (length out.old / 3) }
    ensures { FormulaPassed s.now from.at vars.entry.coils.now vars.entry.inputs from.g stack.old out.old out.new result }
{
    let past = Wrote {
        n: out.len() / 3,
        ..from
    };
    formula_clauses(s, vars, past, stack, out).g
}

// Set 1: the start values, the invariant before, its top negated. The sheet's formulas are passed for their variables.
fn start_set(
    s: &[u8],
    c: &[u8],
    h: Layout,
    before: &[u16],
    after: &mut [u16],
    stack: &mut [u16],
    out: &mut [u16],
) -> usize
    requires there { ClauseSetAt s.now c.now h before.now after.old stack.old }
    requires fresh { Fresh before.now after.old }
    ensures { ClauseSetWritten start s.now c.now h before.now after.old stack.old out.old out.new result }
{
    let inputs = h.coils + 1;
    let full = out.len() / 3;
    let r = ladder(s, h, after, stack, out, full);
    let g = formula_end(
        s,
        Variables {
            coils: after,
            inputs,
        },
        r,
        stack,
        out,
    );
    let n = start_units(s, h.coils, out);
    let old = Variables {
        coils: before,
        inputs,
    };
    formula_top(c, old, Wrote { at: 1, g, n }, stack, out, false).n
}

// Set 2: the rungs, the invariant before, its top, the invariant after, its top negated. The condition is passed.
fn keep_set(
    s: &[u8],
    c: &[u8],
    h: Layout,
    before: &[u16],
    after: &mut [u16],
    stack: &mut [u16],
    out: &mut [u16],
) -> usize
    requires there { ClauseSetAt s.now c.now h before.now after.old stack.old }
    requires fresh { Fresh before.now after.old }
    ensures { ClauseSetWritten keep s.now c.now h before.now after.old stack.old out.old out.new result }
{
    let inputs = h.coils + 1;
    let r = ladder(s, h, after, stack, out, 0);
    let new = Variables {
        coils: after,
        inputs,
    };
    let g = formula_end(s, new, r, stack, out);
    let old = Variables {
        coils: before,
        inputs,
    };
    let i = formula_top(c, old, Wrote { at: 1, g, n: r.n }, stack, out, true);
    formula_top(c, new, Wrote { at: 1, ..i }, stack, out, false).n
}

// Set 3: the rungs, the condition, the invariant before, its top, the condition's top negated.
fn safe_set(
    s: &[u8],
    c: &[u8],
    h: Layout,
    before: &[u16],
    after: &mut [u16],
    stack: &mut [u16],
    out: &mut [u16],
) -> usize
    requires there { ClauseSetAt s.now c.now h before.now after.old stack.old }
    requires fresh { Fresh before.now after.old }
    ensures { ClauseSetWritten safe s.now c.now h before.now after.old stack.old out.old out.new result }
{
    let inputs = h.coils + 1;
    let r = ladder(s, h, after, stack, out, 0);
    let q = formula_clauses(
        s,
        Variables {
            coils: after,
            inputs,
        },
        r,
        stack,
        out,
    );
    let old = Variables {
        coils: before,
        inputs,
    };
    let i = formula_top(c, old, Wrote { at: 1, ..q }, stack, out, true);
    unit(out, i.n, q.g - 1, false)
}

// Places for a set: the coils' variables before and after the scan, and a formula's stack.
#[derive(Drop)]
pub struct Scratch<'a, 'b, 'c> {
    pub before: &'a mut [u16],
    pub after: &'b mut [u16],
    pub stack: &'c mut [u16],
}

// The set, as far as there is room for it, on lent places, which may serve again for another set; answers how many clauses it has.
pub fn set_clauses(
    set: Set,
    s: &[u8],
    c: &[u8],
    h: Layout,
    scratch: Scratch<'_, '_, '_>,
    out: &mut [u16],
) -> usize
    requires { ClauseSetAt s.now c.now h scratch.before.now scratch.after.now scratch.stack.now }
    ensures written { ClauseSetWritten (which_of set) s.now c.now h scratch.entry.before.now scratch.entry.after.now scratch.entry.stack.now out.old out.new result }
    ensures before_long { length scratch.exit.0.now ≡ length scratch.entry.before.now }
    ensures after_long { length scratch.exit.1.0.now ≡ length scratch.entry.after.now }
    ensures stack_long { length scratch.exit.1.1.0.now ≡ length scratch.entry.stack.now }
{
    let Scratch {
        before,
        after,
        stack,
    } = scratch;
    number_coils(before);
    number_coils(after);
    match set {
        Set::Start => start_set(s, c, h, before, after, stack, out),
        Set::Keep => keep_set(s, c, h, before, after, stack, out),
        Set::Safe => safe_set(s, c, h, before, after, stack, out),
    }
}

// The same by a set's number from 1 to 3.
pub fn clause_set(
    which: u8,
    s: &[u8],
    c: &[u8],
    h: Layout,
    scratch: Scratch<'_, '_, '_>,
    out: &mut [u16],
) -> usize
    requires { ClauseSetAt s.now c.now h scratch.before.now scratch.after.now scratch.stack.now }
    ensures written { SetOfNumber which s.now c.now h scratch.entry.before.now scratch.entry.after.now scratch.entry.stack.now out.old out.new result }
    ensures before_long { length scratch.exit.0.now ≡ length scratch.entry.before.now }
    ensures after_long { length scratch.exit.1.0.now ≡ length scratch.entry.after.now }
    ensures stack_long { length scratch.exit.1.1.0.now ≡ length scratch.entry.stack.now }
{
    let set = Set::try_from(u32::from(which)).unwrap_or(Set::Safe);
    let Scratch {
        before,
        after,
        stack,
    } = scratch;
    let scratch = Scratch {
        before,
        after,
        stack,
    };
    set_clauses(set, s, c, h, scratch, out)
}

// The same on places of its own, enough for the base limits.
pub fn write_clauses(set: Set, s: &[u8], c: &[u8], h: Layout, out: &mut [u16]) -> usize
    requires { SetThere s.now c.now h }
    ensures { SetWritten (which_of set) s.now c.now h out.old out.new result }
{
    let mut before = [0u16; Sheet::COILS];
    let mut after = [0u16; Sheet::COILS];
    let mut stack = [0u16; Sheet::DEPTH];
    let scratch = Scratch {
        before: &mut before,
        after: &mut after,
        stack: &mut stack,
    };
    set_clauses(set, s, c, h, scratch, out)
}
