// The scan: a formula's value from its bytes, the rungs in order, and the condition after them.
#![tactic(auto)]

mod within;

ghost use Rattle.std.specs.Prelude.{◌≡◌, ◌≤◌, ◌<◌, length};
ghost use Rattle.rules.specs.Head.{base_limits};
ghost use Rattle.ladder.specs.Values.{Put, Taken};
ghost use Rattle.ladder.specs.Starts.{StartsAt, Initialises};
ghost use Rattle.ladder.specs.Scan.{RungAt, RunsRung, RungsAt, RunsRungs, LadderAt, ScansOnce};
ghost use Rattle.ladder.specs.Scanned.{ScansSheet, ScanMeans};
ghost use Rattle.ladder.specs.Order.{Order};
ghost use Rattle.ladder.specs.Evaluate.{Applicable, Applied, FormulaAt, Evaluates, bounds_for};

use formulas::Part;
use rules::{Fault, Refusal, Sheet};

// Values on lent places, the last one put at the top.
#[derive(Drop)]
struct Stack<'a> {
    places: &'a mut [u16],
    depth: usize,
}

impl Stack<'_> {
    fn push(&mut self, v: bool)
        requires { self.old.depth < length self.old.places.now }
        ensures same { self.new.places.ghost_name ≡ self.old.places.ghost_name }
        ensures put { Put self.old.places.now self.new.places.now self.old.depth v self.new.depth }
    {
        self.places[self.depth] = u16::from(v);
        self.depth += 1;
    }

    fn pop(&mut self) -> bool
        requires { (1 ≤ self.old.depth) × (self.old.depth ≤ length self.old.places.now) }
        ensures same { self.new.places.ghost_name ≡ self.old.places.ghost_name }
        ensures taken { Taken self.old.places.now self.new.places.now self.old.depth result self.new.depth }
    {
        self.depth -= 1;
        self.places[self.depth] != 0
    }
}

// One formula record: it takes its operands from the stack and puts its value there.
#[tactic(auto, using(crate::proofs::ApplyLaws::apply_cases))]
fn apply(part: Part, inputs: &[u16], coils: &[u16], stack: &mut Stack<'_>)
    requires { Applicable part (length inputs.now) (length coils.now) (length stack.old.places.now) stack.old.depth }
    ensures same { stack.new.places.ghost_name ≡ stack.old.places.ghost_name }
    ensures applied { Applied part inputs.now coils.now stack.old.places.now stack.new.places.now stack.old.depth stack.new.depth }
{
    match part {
        Part::Input(n) => stack.push(inputs[usize::from(n)] != 0),
        Part::Coil(n) => stack.push(coils[usize::from(n)] != 0),
        Part::Constant(v) => stack.push(v),
        Part::Not => {
            let x = stack.pop();
            stack.push(!x);
        }
        Part::And => {
            let y = stack.pop();
            let x = stack.pop();
            stack.push(x && y);
        }
        Part::Or => {
            let y = stack.pop();
            let x = stack.pop();
            stack.push(x || y);
        }
        Part::Closing => {}
    }
}

// A formula's value, and the place of the record that closes it.
#[derive(Clone, Copy, Debug, PartialEq, Eq)]
pub struct Evaluated {
    pub on: bool,
    pub at: usize,
}

// The formula whose bytes start at a place.
pub fn evaluate(
    s: &[u8],
    from: usize,
    inputs: &[u16],
    coils: &[u16],
    stack: &mut [u16],
) -> Evaluated
    requires { FormulaAt s.now from (bounds_for inputs.now coils.now stack.old) }
    ensures { Evaluates s.now from inputs.now coils.now stack.old stack.new result }
{
    let mut stack = Stack {
        places: stack,
        depth: 0,
    };
    let mut at = from;
    // Where the formula ends is known only at the record that closes it.
    loop {
        let part = formulas::part_at(s, at);
        if let Part::Closing = part {
            return Evaluated {
                on: stack.pop(),
                at,
            };
        }
        apply(part, inputs, coils, &mut stack);
        at += formulas::part_length(part);
    }
}

// One rung: its formula, then its coil.
fn run_rung(s: &[u8], from: usize, inputs: &[u16], coils: &mut [u16], stack: &mut [u16]) -> usize
    requires { RungAt s.now from (bounds_for inputs.now coils.old stack.old) }
    ensures { RunsRung s.now from inputs.now coils.old coils.new stack.old stack.new result }
{
    let Evaluated { on, at } = evaluate(s, from, inputs, coils, stack);
    let coil = usize::from(records::number_at(s, at, 1));
    coils[coil] = u16::from(on);
    at + 3
}

// The rungs in order; the answer is the place past them.
pub fn run_rungs(
    s: &[u8],
    from: usize,
    rungs: usize,
    inputs: &[u16],
    coils: &mut [u16],
    stack: &mut [u16],
) -> usize
    requires { RungsAt s.now from rungs (bounds_for inputs.now coils.old stack.old) }
    ensures { RunsRungs s.now from rungs inputs.now coils.old coils.new stack.old stack.new result }
{
    let mut at = from;
    for _ in 0..rungs {
        at = run_rung(s, at, inputs, coils, stack);
    }
    at
}

// One scan: the rungs in order, then the condition over this scan's inputs and the coils after it.
pub fn scan_once(
    s: &[u8],
    from: usize,
    rungs: usize,
    inputs: &[u16],
    coils: &mut [u16],
    stack: &mut [u16],
) -> bool
    requires { LadderAt s.now from rungs (bounds_for inputs.now coils.old stack.old) }
    ensures { ScansOnce s.now from rungs inputs.now coils.old coils.new stack.old stack.new result }
{
    let at = run_rungs(s, from, rungs, inputs, coils, stack);
    evaluate(s, at, inputs, coils, stack).on
}

// The start values of a sheet's coils, from its STARTs, which begin at a place; the other coils are left as they are.
pub fn initialise(s: &[u8], from: usize, starts: usize, coils: &mut [u16])
    requires { StartsAt s.now from starts (length coils.old) }
    ensures { Initialises s.now from starts coils.old coils.new }
{
    let mut at = from;
    for _ in 0..starts {
        let coil = usize::from(records::number_at(s, at, 1));
        coils[coil] = u16::from(records::byte_at(s, at, 3) == 1);
        at += 4;
    }
}

// One scan of any sheet bytes, over lent places; a place that is not zero is on. The answer is whether the condition holds
// after it; a refused scan changes no place.
pub fn scan(sheet: &[u8], inputs: &[u16], coils: &mut [u16]) -> Result<bool, Refusal>
    ensures { ScansSheet base_limits sheet.now inputs.now coils.old coils.new result }
{
    let l = Sheet::limits();
    if inputs.len() < l.inputs || coils.len() < l.coils {
        return Err(Fault::ShortWorkspace.at(0));
    }
    let mut marks = [0u16; Sheet::COILS];
    let mut stack = [0u16; Sheet::DEPTH];
    within::scan_within(l, sheet, inputs, coils, &mut marks, &mut stack)
}

// Nothing to run: a scan that is not refused is a scan as the meaning says.
pub fn scan_means()
    ensures { ScanMeans }
{}

// Nothing to run: a ladder whose second rung reads what the first has just set.
pub fn rungs_in_order()
    ensures { Order }
{}
