// The clauses of a formula, from its records in postfix order and a stack of variables.
ghost use Rattle.std.specs.Prelude.{◌≡◌};
ghost use Rattle.clauses.specs.Stack.{vars_of, stk, gate_of, Reached, Enterable, Entered};
ghost use Rattle.clauses.specs.Formed.{FormulaAt, FormulaWritten};

use super::gates::{Gate, define, values};
use super::{Variables, Wrote};
use formulas::Part;

// The variables of the records whose values no record has taken yet, on lent places, the last on top.
#[derive(Drop)]
struct Stack<'a> {
    variables: &'a mut [u16],
    height: usize,
}

// What the record says of its variable, over the variables on the stack; None of a record that closes the formula.
#[tactic(auto, using(crate::proofs::StackLaws::operand_cases), unfolding(crate::specs::Stack::Reaches, crate::specs::Stack::takes, crate::specs::Stack::gate_of))]
fn gate_of(p: Part, vars: Variables, stack: &Stack<'_>) -> Option<Gate>
    requires { Reached p vars.coils.now vars.inputs stack.now.variables.now stack.now.height }
    ensures { result ≡ gate_of (vars_of vars.entry.coils.now vars.entry.inputs) p (stk stack.now.variables.now stack.now.height) }
{
    match p {
        Part::Input(j) => Some(Gate::Same(vars.inputs + j)),
        Part::Coil(c) => Some(Gate::Same(vars.coils[usize::from(c)])),
        Part::Constant(on) => Some(Gate::Fixed(on)),
        Part::Not => Some(Gate::Inverse(stack.variables[stack.height - 1])),
        Part::And => Some(Gate::Both(
            stack.variables[stack.height - 2],
            stack.variables[stack.height - 1],
        )),
        Part::Or => Some(Gate::Either(
            stack.variables[stack.height - 2],
            stack.variables[stack.height - 1],
        )),
        Part::Closing => None,
    }
}

// The next record: its clauses, and its variable in place of the values that it takes; the number of the next clause.
// None of a record that closes the formula.
fn enter(
    p: Part,
    vars: Variables,
    w: Wrote,
    stack: &mut Stack<'_>,
    out: &mut [u16],
) -> Option<usize>
    requires { Enterable p vars.coils.now vars.inputs w.g stack.old.variables.now stack.old.height w.n }
    ensures same { stack.new.variables.ghost_name ≡ stack.old.variables.ghost_name }
    ensures entered { Entered p vars.entry.coils.now vars.entry.inputs w.g stack.old.variables.now stack.old.height out.old w.n stack.new.variables.now stack.new.height out.new result }
{
    let Some(gate) = gate_of(p, vars, stack) else {
        return None;
    };
    let k = stack.height - values(gate);
    stack.variables[k] = w.g;
    stack.height = k + 1;
    Some(define(out, w.n, w.g, gate))
}

// The clauses of the formula at a place, up to the record that closes it.
#[tactic(auto, using(crate::proofs::FormulaLaws::formula_cases))]
pub(crate) fn formula_clauses(
    s: &[u8],
    vars: Variables,
    from: Wrote,
    stack: &mut [u16],
    out: &mut [u16],
) -> Wrote
    requires { FormulaAt s.now from.at vars.coils.now vars.inputs from.g stack.old from.n }
    ensures { FormulaWritten s.now from.at vars.entry.coils.now vars.entry.inputs from.g stack.old out.old from.n out.new result }
{
    let mut w = from;
    let mut stack = Stack {
        variables: stack,
        height: 0,
    };
    // Where the formula ends is known only at the record that closes it.
    loop {
        let p = formulas::part_at(s, w.at);
        let Some(n) = enter(p, vars, w, &mut stack, out) else {
            return w;
        };
        w = Wrote {
            at: w.at + formulas::part_length(p),
            g: w.g + 1,
            n,
        };
    }
}
