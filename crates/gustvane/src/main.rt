// The program: it reads the sheet file and the certificate file that its two arguments name, and writes one line.
#![tactic(auto)]

ghost use Rattle.std.specs.Prelude.{◌≡◌, ◌+◌, ◌≤◌, length};
ghost use Rattle.files.specs.Files.{base_bounds};
ghost use Rattle.writing.specs.Room.{enough, Lined};
ghost use Rattle.loading.specs.Loading.{Holds};
ghost use Rattle.gustvane.specs.Program.{verdict_line};

use files::{CERTIFICATE, SHEET};
use line::ROOM;
use rules::Sheet;
use std::io;
use std::io::Print;

// The line for two files' bytes, which may come cut one byte past their bounds.
fn write_verdict(sheet: &[u8], certificate: &[u8], out: &mut [u8]) -> usize
    requires { enough ≤ length out.old }
    ensures { Lined (verdict_line sheet.now certificate.now) out.old out.new result }
{
    let mut work = [0u16; Sheet::PLACES];
    line::write_line(files::judge_files(sheet, certificate, &mut work), out)
}

fn say_verdict(rt: &impl Print, sheet: &[u8], certificate: &[u8]) -> io::Result<()> {
    let mut text = [0u8; ROOM];
    let n = write_verdict(sheet, certificate, &mut text);
    rt.write_all(&text[..n])
}

fn say_unreadable(rt: &impl Print) -> io::Result<()> {
    let mut text = [0u8; ROOM];
    let n = line::write_unreadable(&mut text);
    rt.write_all(&text[..n])
}

// The line for what was read of the two files, in rooms that hold one byte past each bound.
fn answer(
    rt: &impl Print,
    a: Option<usize>,
    sheet: &[u8],
    b: Option<usize>,
    certificate: &[u8],
) -> io::Result<()>
    requires sheet_holds { Holds sheet.now 0 a }
    requires certificate_holds { Holds certificate.now 0 b }
    requires sheet_room { length sheet.now ≡ base_bounds.sheet + 1 }
    requires certificate_room { length certificate.now ≡ base_bounds.certificate + 1 }
{
    let (Some(n), Some(m)) = (a, b) else {
        return say_unreadable(rt);
    };
    say_verdict(rt, &sheet[..n], &certificate[..m])
}

// Both files are tried before either is judged, and no more than one byte past a bound is read.
fn main(rt: HostRuntime) -> io::Result<()> {
    let mut sheet = [0u8; SHEET + 1];
    let mut certificate = [0u8; CERTIFICATE + 1];
    let a = loading::load(&rt, 1, &mut sheet);
    let b = loading::load(&rt, 2, &mut certificate);
    answer(&rt, a, &sheet, b, &certificate)
}
