// The first broken scan of a confirmed trace: the inputs that were on in it, and the coils that are on after it.
ghost use Rattle.std.specs.Prelude.{◌≤◌, length, IfSome};

use super::walk;
use records::Kind;
use rules::Fault;
use std::io;
use std::io::Print;

// The length of a question: a contact on a coil as the condition, and the sheet's end.
const QUESTION: usize = 5;

// The end of a list's line, whether none was on it.
fn end_list(rt: &impl Print, none: bool) -> io::Result<()> {
    let end = if none { " none" } else { "" };
    println!(rt; "{end}")
}

// The inputs that are on from a place of a trace up to the next SCAN.
fn say_inputs(rt: &impl Print, trace: &[u8], from: usize) -> io::Result<()> {
    let mut none = true;
    for (at, record) in walk::from(trace, from) {
        match record.kind {
            Kind::Scan => break,
            Kind::InputOn => {
                print!(rt; " {}", records::number_at(trace, at, 1))?;
                none = false;
            }
            _ => {}
        }
    }
    end_list(rt, none)
}

// Is a coil on after the trace's last scan? The checker is asked, over the same rungs with a contact on that coil as the
// condition: it answers that the condition held exactly where the coil is on.
fn is_on(probe: &mut [u8], coil: u16, trace: &[u8], work: &mut [u16]) -> bool
    requires { 5 ≤ length probe.old }
{
    let [low, high] = coil.to_le_bytes();
    let at = probe.len() - QUESTION;
    let question = [
        u8::from(Kind::Coil),
        low,
        high,
        u8::from(Kind::Condition),
        u8::from(Kind::End),
    ];
    probe[at..].copy_from_slice(&question);
    let answer = checker::check(probe, trace, work);
    matches!(answer, Err(refusal) if refusal.fault == Fault::ConditionHeld)
}

// The coils that are on after a trace's last scan.
fn say_coils(rt: &impl Print, probe: &mut [u8], trace: &[u8], work: &mut [u16]) -> io::Result<()>
    requires { 5 ≤ length probe.old }
{
    let mut none = true;
    for coil in 0..records::number_at(probe, 0, 3) {
        if is_on(probe, coil, trace, work) {
            print!(rt; " {coil}")?;
            none = false;
        }
    }
    end_list(rt, none)
}

// A sheet up to its condition: HEAD, the STARTs and the rungs.
fn rungs(sheet: &[u8]) -> Option<&[u8]>
    ensures { IfSome result (λ r. length r.now ≤ length sheet.now) }
{
    let (_, last) = walk::from(sheet, 0)
        .take_while(|(_, record)| record.kind != Kind::Condition)
        .filter(|(_, record)| matches!(record.kind, Kind::Head | Kind::Start | Kind::Rung))
        .last()?;
    sheet.get(..last.next)
}

// The rungs with room for a question.
fn probe(sheet: &mut [u8]) -> Option<&mut [u8]>
    ensures { IfSome result (λ r. 5 ≤ length r.now) }
{
    let length = rungs(sheet)?.len();
    sheet.get_mut(..length + QUESTION)
}

// The place past a number of scans, where the next one's records begin.
fn past_scans(trace: &[u8], scans: usize) -> Option<usize> {
    let (_, record) = walk::from(trace, 0)
        .filter(|(_, record)| matches!(record.kind, Kind::Trace | Kind::Scan))
        .nth(scans)?;
    Some(record.next)
}

// A trace up to the end of a scan, and END after it.
fn cut_after(trace: &mut [u8], scan: usize) -> Option<&[u8]> {
    let place = past_scans(trace, scan)?;
    *trace.get_mut(place)? = u8::from(Kind::End);
    trace.get(..=place)
}

// The first broken scan of a confirmed trace. The sheet's condition and what follows the scan are overwritten.
pub fn confirmed(
    rt: &impl Print,
    sheet: &mut [u8],
    trace: &mut [u8],
    scan: usize,
    work: &mut [u16],
) -> io::Result<()> {
    println!(rt;
        "The trace breaks the condition, and this is the first scan after which it is false."
    )?;
    print!(rt; "Inputs on in this scan:")?;
    let from = past_scans(trace, scan.saturating_sub(1)).unwrap_or(0);
    say_inputs(rt, trace, from)?;
    print!(rt; "Coils on after it:")?;
    let (Some(probe), Some(trace)) = (probe(sheet), cut_after(trace, scan)) else {
        return end_list(rt, true);
    };
    say_coils(rt, probe, trace, work)
}
