// A safety certificate over a good sheet: three refutations, each over its own clause set, then END.
ghost use Rattle.std.specs.Prelude.{◌≡◌};
ghost use Rattle.rules.specs.Certificate.{Which.start};
ghost use Rattle.rules.specs.Verdict.{which_of};
ghost use Rattle.checker.specs.Refuted.{SafeAt, clause_room, Refutes, Follows, Limited};

use clauses::Layout;
use refutation::Clauses;
use rules::{Answer, Limits, Refusal, Set};

// The places for one clause set: the derived clauses stand behind it.
fn clause_room(l: Limits) -> usize
    requires { Limited l }
    ensures { result ≡ clause_room l }
{
    3 * (l.coils + 3 * l.records + 6 * l.invariant + 2)
}

// One refutation: its clauses are written first, and derived ones are not carried from one to the next.
#[tactic(auto, using(crate::proofs::RefutedLaws::refute_cases))]
fn refute(
    l: Limits,
    set: Set,
    s: &[u8],
    c: &[u8],
    h: Layout,
    at: usize,
    work: &mut [u16],
) -> Result<usize, Refusal>
    requires { SafeAt l s.now c.now h work.old }
    ensures { Refutes l (which_of set) s.now c.now h at work.old result }
{
    let from = clause_room(l);
    let base = clauses::sets::write_clauses(set, s, c, h, &mut work[..from]);
    refutation::steps_until_qed(l, c, at, work, Clauses { base, from })
}

// The refutations of a certificate, from the place after INVARIANT on.
#[tactic(auto, using(crate::proofs::RefutedLaws::safe_again))]
pub fn judge_refutations(
    l: Limits,
    s: &[u8],
    c: &[u8],
    h: Layout,
    at: usize,
    work: &mut [u16],
) -> Result<Answer, Refusal>
    requires { SafeAt l s.now c.now h work.old }
    ensures { Follows start l s.now c.now h at work.old result }
{
    let second = refute(l, Set::Start, s, c, h, at, work)?;
    let third = refute(l, Set::Keep, s, c, h, second, work)?;
    let end = refute(l, Set::Safe, s, c, h, third, work)?;
    refutation::end_at(c, end)
}
