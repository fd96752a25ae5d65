// Demand 3, the translation loses nothing and adds nothing: theorems about the rules, and nothing to run.
#![tactic(auto)]

ghost use Rattle.solving.specs.Statements.{RecordsEnd, ExtendsOnce, Parts, StartSet, KeepSet, SafeSet, InputsDoNotMatter, PlacesLoseNothing, SetsPlaceable};

// The value that is computed for a record is that of the sub-formula that ends there.
pub fn records_end()
    ensures { RecordsEnd }
{}

// Each choice of coils and inputs extends in exactly one way to values that meet the defining clauses, those the rules compute.
pub fn extends_once()
    ensures { ExtendsOnce }
{}

// A set is its defining clauses and its unit clauses: none left out, none added.
pub fn parts()
    ensures { Parts }
{}

// Set 1 has a solution exactly when a start breaks the invariant.
pub fn start_set()
    ensures { StartSet }
{}

// Set 2 has a solution exactly when a single scan from within the invariant leaves it.
pub fn keep_set()
    ensures { KeepSet }
{}

// Set 3 has a solution exactly when a single scan from within the invariant breaks the condition.
pub fn safe_set()
    ensures { SafeSet }
{}

// An invariant has the same value over any inputs.
pub fn inputs_do_not_matter()
    ensures { InputsDoNotMatter }
{}

// The places of clauses are read back as those clauses.
pub fn places_lose_nothing()
    ensures { PlacesLoseNothing }
{}

// Every clause of every set has one to three literals, whose variables count from 1 to the last one.
pub fn sets_placeable()
    ensures { SetsPlaceable }
{}
