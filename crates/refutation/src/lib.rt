// STEP and QED over clauses in lent memory.
#![tactic(auto)]

mod codes;
mod marks;

ghost use Rattle.std.specs.Prelude.{◌≡◌, ◌≤◌, ◌<◌, length};
ghost use Rattle.refutation.specs.Memory.{Room, Fit};
ghost use Rattle.refutation.specs.Making.{codes, Slotted, Placed, Pair, union, Making, Tried};
ghost use Rattle.refutation.specs.Steps.{step_of, Stepped};
ghost use Rattle.refutation.specs.Judging.{Judged, Ended};

use codes::{Site, Spot, has, unite};
use marks::{Mark, mark_at};
use records::{Common, Kind};
use rules::{Answer, Fault, Limits, Refusal};

// Where the clauses are: base ones, three places each, from place 0 on, and slots of derived ones from place `from` on.
#[derive(Clone, Copy, Debug, PartialEq, Eq)]
pub struct Clauses {
    pub base: usize,
    pub from: usize,
}

// The two clauses that a STEP names, and its pivot.
#[derive(Clone, Copy, Debug, PartialEq, Eq)]
pub struct Numbers {
    pub first: u16,
    pub second: u16,
    pub pivot: u16,
}

// Where derived clause number j, counted from 0, has its slot: its size, then its literals.
fn slot(l: Limits, work: &[u16], b: Clauses, j: usize) -> usize
    requires { Room l work.now b.base b.from × (j ≤ l.steps) }
    ensures { Slotted l work.now b.from j result }
{
    b.from + j * (l.width + 1)
}

// Where the clause of a number stands; numbers count from 1, base clauses first.
#[tactic(auto, using(crate::proofs::SlotLaws::locate_cases))]
fn locate(l: Limits, work: &[u16], b: Clauses, m: usize, number: u16) -> Option<Spot>
    requires { Fit l work.now b.base b.from m }
    ensures { Placed l work.now b.base b.from m number result }
{
    if number == 0 {
        return None;
    }
    let i = usize::from(number) - 1;
    if i < b.base {
        return Some(Spot {
            start: 3 * i,
            count: 3,
        });
    }
    let j = i - b.base;
    if m <= j {
        return None;
    }
    let at = slot(l, work, b, j);
    Some(Spot {
        start: at + 1,
        count: usize::from(work[at]),
    })
}

// The resolvent of two clauses on the code `p`, in the slot at `at`, where m steps came before.
fn resolve(
    l: Limits,
    work: &mut [u16],
    at: usize,
    m: usize,
    first: Spot,
    second: Spot,
    p: usize,
) -> Result<bool, Fault>
    requires { Pair l work.old at first second × (p < 131072) }
    ensures { Making l m work.old at (union (codes work.old first) (codes work.old second) p) work.new result }
{
    let site = Site {
        at: at + 1,
        width: l.width,
    };
    let r = unite(work, site, first, second, p);
    if l.width < r {
        return Err(Fault::Width);
    }
    if l.steps <= m {
        return Err(Fault::Steps);
    }
    work[at] = r as u16;
    Ok(r == 0)
}

// The resolvent of two clauses, where the pivot stands plain in the first and negated in the second.
#[tactic(auto, using(crate::proofs::ResolveLaws::pivoted_cases))]
fn pivoted(
    l: Limits,
    work: &mut [u16],
    at: usize,
    m: usize,
    first: Spot,
    second: Spot,
    pivot: u16,
) -> Result<bool, Fault>
    requires { Pair l work.old at first second }
    ensures { Tried l m work.old at (codes work.old first) (codes work.old second) pivot work.new result }
{
    let p = 2 * usize::from(pivot);
    if pivot == 0 || !has(work, first, p) || !has(work, second, p + 1) {
        return Err(Fault::NoPivot);
    }
    resolve(l, work, at, m, first, second, p)
}

// A STEP, where m steps came before it in this refutation: whether it derives the empty clause.
pub fn step(l: Limits, work: &mut [u16], b: Clauses, m: usize, q: Numbers) -> Result<bool, Fault>
    requires { Fit l work.old b.base b.from m }
    ensures { Stepped l work.old b.base b.from m (step_of q) work.new result }
{
    let Some(first) = locate(l, work, b, m, q.first) else {
        return Err(Fault::NoClause);
    };
    let Some(second) = locate(l, work, b, m, q.second) else {
        return Err(Fault::NoClause);
    };
    let at = slot(l, work, b, m);
    pivoted(l, work, at, m, first, second, q.pivot)
}

// The STEPs of a refutation and its QED, from place `at` of a certificate on: the place after the QED.
pub fn steps_until_qed(
    l: Limits,
    c: &[u8],
    at: usize,
    work: &mut [u16],
    b: Clauses,
) -> Result<usize, Refusal>
    requires { Room l work.old b.base b.from }
    ensures { Judged l c.now at work.old b.base b.from work.new result }
{
    let mut m: usize = 0;
    let mut emptied = false;
    let mut p = at;
    // How many STEPs there are is known only at the QED.
    loop {
        let marked = match mark_at(c, p) {
            Ok(marked) => marked,
            Err(fault) => return Err(fault.at(p)),
        };
        let Mark::Step(q) = marked.mark else {
            if emptied {
                return Ok(marked.next);
            }
            return Err(Fault::NotEmpty.at(p));
        };
        emptied = match step(l, work, b, m, q) {
            Ok(empty) => empty,
            Err(fault) => return Err(fault.at(p)),
        };
        m += 1;
        p = marked.next;
    }
}

// The end of a certificate, after its third QED at place `at`.
pub fn end_at(c: &[u8], at: usize) -> Result<Answer, Refusal>
    ensures { Ended c.now at result }
{
    match records::due_at(c, at, Common::CERTIFICATE, |kind| kind == Kind::End) {
        Ok(end) if end.next < c.len() => Err(Fault::AfterCertificate.at(end.next)),
        Ok(_) => Ok(Answer::Accepted),
        Err(fault) => Err(fault.at(at)),
    }
}
