// A trace is read and replayed at once: the first fault wins, and confirmed names the first scan that broke the condition.
#![tactic(auto)]

ghost use Rattle.std.specs.Prelude.{◌≡◌, ◌≤◌, ◌<◌, length};
ghost use Rattle.rules.specs.Record.{one_of};
ghost use Rattle.records.specs.Kinds.{byte_of};
ghost use Rattle.trace.specs.Playing.{first_broken, play_kinds, NamesInput, ScanIn, AsLong, Scans, EndsScans, Steps, Finishes, ReplayAt, Replays};

use records::{Common, Kind};
use rules::{Answer, Fault, Limits, Refusal};

// A replay under way: the place of the next record, the lowest input that may be named next (0 where none was named since the last
// SCAN), the scans so far, the first that broke the condition, and whether the last did.
#[derive(Clone, Copy)]
pub struct Play {
    pub at: usize,
    pub least: usize,
    pub count: usize,
    pub first: Option<usize>,
    pub broken: bool,
}

// A sheet's bytes, where its rungs begin, how many there are, and how many inputs it has.
#[derive(Clone, Copy, Debug)]
pub struct Ladder<'a> {
    pub sheet: &'a [u8],
    pub from: usize,
    pub rungs: usize,
    pub inputs: usize,
}

// The lent places of a replay.
#[derive(Drop)]
struct Places<'a> {
    inputs: &'a mut [u16],
    coils: &'a mut [u16],
    stack: &'a mut [u16],
}

// The first scan that broke the condition, after this scan.
fn first_broken(first: Option<usize>, scan: usize, holds: bool) -> Option<usize>
    ensures { result ≡ first_broken first scan holds }
{
    if holds { first } else { first.or(Some(scan)) }
}

// INPUT-ON: the input is there, and above the one before.
fn input_on(known: usize, inputs: &mut [u16], p: Play, n: usize) -> Result<Option<Play>, Fault>
    requires { known ≤ length inputs.old }
    ensures { NamesInput known inputs.old inputs.new p n result }
{
    if known <= n {
        return Err(Fault::CertificateRange);
    }
    if n < p.least {
        return Err(Fault::InputOrder);
    }
    inputs[n] = 1;
    Ok(Some(Play { least: n + 1, ..p }))
}

// SCAN: one scan more with the inputs named since the last; then all inputs are off.
fn scan_record(
    l: Limits,
    t: Ladder<'_>,
    places: &mut Places<'_>,
    p: Play,
) -> Result<Option<Play>, Fault>
    requires { ScanIn l t places.old }
    ensures long { AsLong places.old places.new }
    ensures scans { Scans l t.entry places.old places.new p result }
{
    if l.scans <= p.count {
        return Err(Fault::ScanCount);
    }
    let count = p.count + 1;
    let inputs = &mut *places.inputs;
    let holds = ladder::scan_once(t.sheet, t.from, t.rungs, inputs, places.coils, places.stack);
    inputs.fill(0);
    Ok(Some(Play {
        least: 0,
        count,
        first: first_broken(p.first, count, holds),
        broken: !holds,
        ..p
    }))
}

// END: a scan at least.
fn end_record(p: Play) -> Result<Option<Play>, Fault>
    ensures { EndsScans p result }
{
    if p.count == 0 {
        return Err(Fault::ScanCount);
    }
    Ok(None)
}

// Is a kind in its spot? END may not follow INPUT-ON.
fn allowed(kind: Kind, p: Play) -> bool
    ensures { result ≡ one_of (play_kinds p) (byte_of kind) }
{
    match kind {
        Kind::InputOn | Kind::Scan => true,
        Kind::End => p.least == 0,
        _ => false,
    }
}

// The record at the replay's place.
fn step(
    l: Limits,
    t: Ladder<'_>,
    c: &[u8],
    places: &mut Places<'_>,
    p: Play,
) -> Result<Option<Play>, Fault>
    requires { ScanIn l t places.old }
    ensures long { AsLong places.old places.new }
    ensures steps { Steps l t.entry c.now places.old places.new p result }
{
    let record = records::due_at(c, p.at, Common::CERTIFICATE, |kind| allowed(kind, p))?;
    let q = Play {
        at: record.next,
        ..p
    };
    match record.kind {
        Kind::InputOn => {
            let n = usize::from(records::number_at(c, p.at, 1));
            input_on(t.inputs, places.inputs, q, n)
        }
        Kind::Scan => scan_record(l, t, places, q),
        _ => end_record(q),
    }
}

// END: 25 where the condition held after the last scan, then 26 for a byte after it.
fn at_end(c: &[u8], p: Play) -> Result<Answer, Refusal>
    requires { p.at < length c.now }
    ensures { Finishes c.now p result }
{
    let past = p.at + 1;
    match p.first {
        Some(scan) if p.broken => {
            if past < c.len() {
                return Err(Fault::AfterCertificate.at(past));
            }
            Ok(Answer::Confirmed { scan })
        }
        _ => Err(Fault::ConditionHeld.at(p.at)),
    }
}

// The trace in `c`, whose first record has been read, replayed over the ladder: the inputs' places are all off and the coils'
// places hold the start values.
pub fn replay(
    l: Limits,
    t: Ladder<'_>,
    c: &[u8],
    inputs: &mut [u16],
    coils: &mut [u16],
    stack: &mut [u16],
) -> Result<Answer, Refusal>
    requires { ReplayAt l t c.now inputs.old coils.old stack.old }
    ensures { Replays l t.entry c.now inputs.old inputs.new coils.old coils.new stack.old stack.new result }
{
    let mut places = Places {
        inputs,
        coils,
        stack,
    };
    let mut p = Play {
        at: 1,
        least: 0,
        count: 0,
        first: None,
        broken: false,
    };
    // Which kinds may follow is known only from the record before, so no iterator over the records serves.
    loop {
        match step(l, t, c, &mut places, p) {
            Ok(Some(q)) => p = q,
            Ok(None) => return at_end(c, p),
            Err(fault) => return Err(fault.at(p.at)),
        }
    }
}
