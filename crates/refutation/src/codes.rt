// Codes in lent memory: those of a clause that stands there, and those of one under construction.
ghost use Rattle.std.specs.Prelude.{◌≡◌, ◌+◌, ◌≤◌, length};
ghost use Rattle.rules.specs.Record.{one_of};
ghost use Rattle.refutation.specs.Making.{codes, with, unless, joined, Space, Grown, Apart, Both, union, United};

// Where a clause's codes are.
#[derive(Clone, Copy, Debug, PartialEq, Eq)]
pub(crate) struct Spot {
    pub(crate) start: usize,
    pub(crate) count: usize,
}

// Where a clause is under construction, from place `at` on, and how many codes of it are kept.
#[derive(Clone, Copy, Debug, PartialEq, Eq)]
pub(crate) struct Site {
    pub(crate) at: usize,
    pub(crate) width: usize,
}

// Whether a code is among those of a clause.
pub(crate) fn has(work: &[u16], spot: Spot, code: usize) -> bool
    requires { spot.start + spot.count ≤ length work.now }
    ensures { result ≡ one_of (codes work.now spot) code }
{
    work[spot.start..spot.start + spot.count]
        .iter()
        .any(|x| code == usize::from(*x))
}

// One code more for the clause of which k codes stand there; past the width it is only told that they are more.
pub(crate) fn add(work: &mut [u16], site: Site, k: usize, x: u16) -> usize
    requires { Space work.old site.at site.width k }
    ensures { Grown work.old site.at site.width k (with x) work.new result }
{
    let there = Spot {
        start: site.at,
        count: k,
    };
    if site.width < k || has(work, there, usize::from(x)) {
        return k;
    }
    if k < site.width {
        work[site.at + k] = x;
    }
    k + 1
}

// The same, and nothing where the code is the filler or `but`.
pub(crate) fn add_but(work: &mut [u16], site: Site, k: usize, x: u16, but: usize) -> usize
    requires { Space work.old site.at site.width k }
    ensures { Grown work.old site.at site.width k (unless but x) work.new result }
{
    if x == 0 || usize::from(x) == but {
        return k;
    }
    add(work, site, k, x)
}

// The codes of a clause that stands before, but `but`, joined to the k that stand there.
pub(crate) fn join(work: &mut [u16], site: Site, k: usize, spot: Spot, but: usize) -> usize
    requires { Apart work.old site.at site.width k spot }
    ensures { Grown work.old site.at site.width k (joined but (codes work.old spot)) work.new result }
{
    let mut r = k;
    for i in 0..spot.count {
        let x = work[spot.start + i];
        r = add_but(work, site, r, x, but);
    }
    r
}

// The codes of two clauses, without `p` of the one and the code after it of the other.
pub(crate) fn unite(work: &mut [u16], site: Site, first: Spot, second: Spot, p: usize) -> usize
    requires { Both work.old site.at site.width first second p }
    ensures { United work.old site.at site.width (union (codes work.old first) (codes work.old second) p) work.new result }
{
    let k = join(work, site, 0, first, p);
    join(work, site, k, second, p + 1)
}
