// What the program's line means: it takes the same two arguments, writes the line, and then says why in plain words.
#![tactic(auto)]

mod reasons;
mod spots;
mod traces;
mod walk;

ghost use Rattle.std.specs.Prelude.{◌≤◌, length};

use files::{CERTIFICATE, SHEET};
use line::ROOM;
use rules::{Answer, Fault, Refusal, Sheet};
use std::io;
use std::io::Print;

fn say_line(rt: &impl Print, answer: Result<Answer, Refusal>) -> io::Result<()> {
    let mut text = [0u8; ROOM];
    let n = line::write_line(answer, &mut text);
    rt.write_all(&text[..n])
}

fn say_unreadable(rt: &impl Print) -> io::Result<()> {
    let mut text = [0u8; ROOM];
    let n = line::write_unreadable(&mut text);
    rt.write_all(&text[..n])?;
    println!(rt; "A file's name is missing, or a file cannot be opened or read.")?;
    println!(rt; "Give two names: the sheet's, then the certificate's.")
}

// What a refusal means, and where the record at its place stands.
fn say_refused(
    rt: &impl Print,
    sheet: &[u8],
    certificate: &[u8],
    refusal: Refusal,
) -> io::Result<()> {
    println!(rt; "{}", reasons::reason(refusal.fault))?;
    let place = refusal.place;
    match refusal.fault {
        Fault::ShortWorkspace | Fault::FileSize | Fault::ShortRoom | Fault::NoSet => Ok(()),
        Fault::SheetEnds
        | Fault::SheetKind
        | Fault::SheetRange
        | Fault::StartOrder
        | Fault::SheetOperands
        | Fault::SheetDepth
        | Fault::SheetRecords
        | Fault::CoilTwice
        | Fault::RungCount
        | Fault::AfterSheet => spots::in_sheet(rt, sheet, place),
        Fault::CertificateEnds
        | Fault::CertificateKind
        | Fault::CertificateRange
        | Fault::InvariantOperands
        | Fault::InvariantDepth
        | Fault::InvariantRecords
        | Fault::AfterCertificate => spots::in_certificate(rt, certificate, place),
        Fault::NoClause | Fault::NoPivot | Fault::Width | Fault::Steps | Fault::NotEmpty => {
            spots::in_refutation(rt, certificate, place)
        }
        Fault::InputOrder | Fault::ScanCount | Fault::ConditionHeld => {
            spots::in_trace(rt, certificate, place)
        }
    }
}

// The line, and what it means, of the sheet in the first n bytes of its room.
fn explain(rt: &impl Print, sheet: &mut [u8], n: usize, certificate: &mut [u8]) -> io::Result<()>
    requires { n ≤ length sheet.old }
{
    let mut work = [0u16; Sheet::PLACES];
    let answer = files::judge_files(&sheet[..n], certificate, &mut work);
    say_line(rt, answer)?;
    match answer {
        Ok(Answer::Accepted) => {
            println!(rt;
                "The certificate proves that the condition holds after every scan, whatever the inputs."
            )
        }
        Ok(Answer::Confirmed { scan }) => {
            traces::confirmed(rt, sheet, certificate, scan, &mut work)
        }
        Err(refusal) => say_refused(rt, &sheet[..n], certificate, refusal),
    }
}

// Each room holds one byte past its file's bound.
fn main(rt: HostRuntime) -> io::Result<()> {
    let mut sheet = [0u8; SHEET + 1];
    let mut certificate = [0u8; CERTIFICATE + 1];
    let a = loading::load(&rt, 1, &mut sheet);
    let b = loading::load(&rt, 2, &mut certificate);
    let (Some(n), Some(m)) = (a, b) else {
        return say_unreadable(&rt);
    };
    explain(&rt, &mut sheet, n, &mut certificate[..m])
}
