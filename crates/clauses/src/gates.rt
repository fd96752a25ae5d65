// The defining clauses of one formula record, written three places a clause.
ghost use Rattle.std.specs.Prelude.{◌≡◌};
ghost use Rattle.clauses.specs.Emits.{stored, Emitted, Small, signed};
ghost use Rattle.clauses.specs.Gates.{Definable, gate_clauses, values};

// What a formula record says of its own variable: that of a contact, a constant, or what becomes of one variable or two.
#[derive(Clone, Copy, Debug, PartialEq, Eq)]
pub enum Gate {
    Same(u16),
    Fixed(bool),
    Inverse(u16),
    Both(u16, u16),
    Either(u16, u16),
}

// How many values it takes from the stack.
pub(crate) fn values(gate: Gate) -> usize
    ensures { result ≡ values gate }
{
    match gate {
        Gate::Same(_) | Gate::Fixed(_) => 0,
        Gate::Inverse(_) => 1,
        Gate::Both(_, _) | Gate::Either(_, _) => 2,
    }
}

// Clause number n, if there is room for it.
#[tactic(auto, using(crate::proofs::EmitLaws::emit_cases))]
fn emit(out: &mut [u16], n: usize, a: u16, b: u16, c: u16)
    ensures { out.new ≡ stored out.old n a b c }
{
    if out.len() / 3 <= n {
        return;
    }
    let i = 3 * n;
    out[i] = a;
    out[i + 1] = b;
    out[i + 2] = c;
}

// The unit clause of v, plain where it is on, else negated.
#[tactic(auto, using(crate::proofs::EmitLaws::clause_cases))]
pub(crate) fn unit(out: &mut [u16], n: usize, v: u16, on: bool) -> usize
    requires { Small n v v v }
    ensures { Emitted out.old n (signed on v) out.new result }
{
    emit(out, n, if on { 2 * v } else { 2 * v + 1 }, 0, 0);
    n + 1
}

// The clauses of record g, from number n on.
#[tactic(auto, using(crate::proofs::EmitLaws::clause_cases))]
pub(crate) fn define(out: &mut [u16], n: usize, g: u16, gate: Gate) -> usize
    requires { Definable n g gate }
    ensures { Emitted out.old n (gate_clauses g gate) out.new result }
{
    match gate {
        Gate::Same(v) => {
            emit(out, n, 2 * g + 1, 2 * v, 0);
            emit(out, n + 1, 2 * g, 2 * v + 1, 0);
            n + 2
        }
        Gate::Fixed(on) => unit(out, n, g, on),
        Gate::Inverse(x) => {
            emit(out, n, 2 * g + 1, 2 * x + 1, 0);
            emit(out, n + 1, 2 * g, 2 * x, 0);
            n + 2
        }
        Gate::Both(x, y) => {
            emit(out, n, 2 * g + 1, 2 * x, 0);
            emit(out, n + 1, 2 * g + 1, 2 * y, 0);
            emit(out, n + 2, 2 * g, 2 * x + 1, 2 * y + 1);
            n + 3
        }
        Gate::Either(x, y) => {
            emit(out, n, 2 * g, 2 * x + 1, 0);
            emit(out, n + 1, 2 * g, 2 * y + 1, 0);
            emit(out, n + 2, 2 * g + 1, 2 * x, 2 * y);
            n + 3
        }
    }
}
