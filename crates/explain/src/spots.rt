// The record at a place, and what came before it.
ghost use Rattle.std.specs.Prelude.{◌≤◌, length};

use super::walk;
use records::{Kind, NoRecord};
use std::io;
use std::io::Print;

// What stands at a place of some bytes.
fn say_record(rt: &impl Print, bytes: &[u8], place: usize) -> io::Result<()> {
    match records::record_at(bytes, place) {
        Ok(record) => println!(rt; "{}.", record.kind),
        Err(NoRecord::Nothing) => println!(rt; "nothing is left."),
        Err(NoRecord::Unknown) => println!(rt; "a byte that is no kind."),
        Err(NoRecord::Cut(kind)) => println!(rt; "a record that is cut, {kind}."),
    }
}

// How many whole records of a kind begin before a place.
fn count_before(bytes: &[u8], place: usize, kind: Kind) -> usize
    ensures { result ≤ length bytes.now }
{
    walk::before(bytes, place)
        .filter(|(_, record)| record.kind == kind)
        .count()
}

// A refusal of the sheet: its place, and how many rungs were closed before it.
pub fn in_sheet(rt: &impl Print, sheet: &[u8], place: usize) -> io::Result<()> {
    print!(rt; "At byte {place} of the sheet: ")?;
    say_record(rt, sheet, place)?;
    let rungs = count_before(sheet, place, Kind::Rung);
    println!(rt; "Rungs closed before it: {rungs}.")
}

// A refusal of the certificate: its place.
pub fn in_certificate(rt: &impl Print, certificate: &[u8], place: usize) -> io::Result<()> {
    print!(rt; "At byte {place} of the certificate: ")?;
    say_record(rt, certificate, place)
}

// A refusal in a refutation: which one, and how many of its STEPs came before.
pub fn in_refutation(rt: &impl Print, certificate: &[u8], place: usize) -> io::Result<()> {
    in_certificate(rt, certificate, place)?;
    let mut set: usize = 1;
    let mut steps: usize = 0;
    for (_, record) in walk::before(certificate, place) {
        match record.kind {
            Kind::Qed => {
                set += 1;
                steps = 0;
            }
            Kind::Step => steps += 1,
            _ => {}
        }
    }
    println!(rt; "In the refutation of set {set}, STEPs before it: {steps}.")
}

// A refusal in a trace: how many of its scans came before.
pub fn in_trace(rt: &impl Print, certificate: &[u8], place: usize) -> io::Result<()> {
    in_certificate(rt, certificate, place)?;
    let scans = count_before(certificate, place, Kind::Scan);
    println!(rt; "Scans before it: {scans}.")
}
