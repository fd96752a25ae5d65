// Demands 1 and 2 of the rules' own answer, and what they rest on: each contract is a theorem, and there is nothing to run.
// The statements are in specs/Statements.antt and specs/Grounds.antt.
#![tactic(auto)]

ghost use Rattle.proving.specs.Statements.{Short, AcceptedClipped, ConfirmedClipped};
ghost use Rattle.proving.specs.Statements.{AcceptedExactly, AcceptedSafe, ConfirmedExactly, NeverBoth};
ghost use Rattle.proving.specs.Grounds.{ResolventRight, RuleSettles, DeriveExactly, RunsAlike, StepsExactly, RefutedUnsolvable, UnsolvableSafe};

// Refusal 1 means a short workspace, and nothing else does.
pub fn short()
    ensures { Short }
{}

// Every proper prefix of an accepted certificate is refused with 12.
pub fn accepted_clipped()
    ensures { AcceptedClipped }
{}

// Every proper prefix of a confirmed trace is refused with 12.
pub fn confirmed_clipped()
    ensures { ConfirmedClipped }
{}

// The checker accepts exactly the well-formed sheets with a well-formed certificate that refutes the three sets.
pub fn accepted_exactly()
    ensures { AcceptedExactly }
{}

// What it accepts is safe.
pub fn accepted_safe()
    ensures { AcceptedSafe }
{}

// It confirms exactly the well-formed traces that break the condition last, and names the first scan that does.
pub fn confirmed_exactly()
    ensures { ConfirmedExactly }
{}

// It never does both for one sheet.
pub fn never_both()
    ensures { NeverBoth }
{}

// The clause that a step computes is the rule's.
pub fn resolvent_right()
    ensures { ResolventRight }
{}

// The rule settles the literals and the width of what it derives.
pub fn rule_settles()
    ensures { RuleSettles }
{}

// A STEP is refused exactly where the rule or a limit forbids it.
pub fn derive_exactly()
    ensures { DeriveExactly }
{}

// The order of literals in a clause never matters.
pub fn runs_alike()
    ensures { RunsAlike }
{}

// Steps are accepted exactly when they refute the three sets by the rule.
pub fn steps_exactly()
    ensures { StepsExactly }
{}

// Refuted clauses have no solution.
pub fn refuted_unsolvable()
    ensures { RefutedUnsolvable }
{}

// Three sets without a solution make a sheet safe.
pub fn unsolvable_safe()
    ensures { UnsolvableSafe }
{}
