// What the other crates share: clearing lent places. The definitions and laws are in specs/ and proofs/.
#![tactic(auto)]

ghost use Rattle.std.specs.Prelude.{◌≡◌, ◌≤◌, length};
ghost use Rattle.base.specs.Lists.{fresh};

// The first `n` places are zero, the others as they were.
#[tactic(auto, unfolding(crate::specs::Lists::fresh))]
pub fn clear(work: &mut [u16], n: usize)
    requires { n ≤ length work.old }
    ensures { work.new ≡ fresh n work.old }
{
    work[..n].fill(0);
}
