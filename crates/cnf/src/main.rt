// The translator as a program: its arguments are a set's number, a sheet file and a certificate file, and it prints the set as DIMACS.
#![tactic(auto)]

ghost use Rattle.std.specs.Prelude.{◌≡◌, ◌+◌, ◌*◌, ◌≤◌, length};
ghost use Rattle.dimacs.specs.Dimacs.{largest_set};
ghost use Rattle.files.specs.Files.{base_bounds};
ghost use Rattle.loading.specs.Loading.{Holds};
ghost use Rattle.cnf.specs.Set.{set_named, CountsVariables};

use files::{CERTIFICATE, SHEET};
use line::ROOM;
use rules::Refusal;
use std::env::Env;
use std::io;
use std::io::Print;

// Places for the largest set, three for each of 4,700 clauses.
const PLACES: usize = 14100;

fn say_unreadable(rt: &impl Print) -> io::Result<()> {
    let mut text = [0u8; ROOM];
    let n = line::write_unreadable(&mut text);
    rt.write_all(&text[..n])
}

fn say_refused(rt: &impl Print, refusal: Refusal) -> io::Result<()> {
    let mut text = [0u8; ROOM];
    let n = line::write_line(Err(refusal), &mut text);
    rt.write_all(&text[..n])
}

fn say_head(rt: &impl Print, variables: usize, clauses: usize) -> io::Result<()> {
    let mut text = [0u8; ROOM];
    let n = dimacs::write_head(variables, clauses, &mut text);
    rt.write_all(&text[..n])
}

fn say_clause(rt: &impl Print, room: &[u16], k: usize) -> io::Result<()>
    requires { 3 * k + 3 ≤ length room.now }
{
    let mut text = [0u8; ROOM];
    let n = dimacs::write_clause(room, k, &mut text);
    rt.write_all(&text[..n])
}

// The head line, then the clauses in their order.
fn say_clauses(rt: &impl Print, variables: usize, clauses: usize, room: &[u16]) -> io::Result<()> {
    if room.len() / 3 < clauses {
        return Ok(());
    }
    say_head(rt, variables, clauses)?;
    for k in 0..clauses {
        say_clause(rt, room, k)?;
    }
    Ok(())
}

// The head line counts all variables of sheet and invariant for every set, so set 2 is made first: its last clause names the last one.
#[tactic(auto, using(crate::proofs::SetLaws::count_variables_cases))]
fn count_variables(sheet: &[u8], certificate: &[u8], room: &mut [u16]) -> usize
    ensures { CountsVariables sheet.now certificate.now (length room.old) result }
{
    match files::translate_files(2, sheet, certificate, room) {
        Ok(clauses) => dimacs::last_variable(room, clauses),
        Err(_) => 0,
    }
}

// The room holds any set, so none is refused for want of it.
fn say_set(
    rt: &impl Print,
    set: u32,
    sheet: &[u8],
    certificate: &[u8],
    room: &mut [u16],
) -> io::Result<()>
    requires { largest_set ≤ length room.old }
{
    let variables = count_variables(sheet, certificate, room);
    match files::translate_files(set, sheet, certificate, room) {
        Ok(clauses) => say_clauses(rt, variables, clauses, room),
        Err(refusal) => say_refused(rt, refusal),
    }
}

// One byte, 1 to 3; 0 for any other name.
#[tactic(auto, unfolding(crate::specs::Set::set_named))]
fn set_named(name: &[u8]) -> u32
    ensures { result ≡ set_named name.now }
{
    match name {
        [b @ b'1'..=b'3'] => u32::from(*b - b'0'),
        _ => 0,
    }
}

fn set_argument(rt: &impl Env) -> u32 {
    let mut name = [0u8; loading::PATH];
    let n = rt.arg(1, &mut name).unwrap_or(0);
    set_named(&name[..n])
}

// What was read of the two files, in rooms that hold one byte past each bound.
fn answer(
    rt: &impl Print,
    set: u32,
    a: Option<usize>,
    sheet: &[u8],
    b: Option<usize>,
    certificate: &[u8],
) -> io::Result<()>
    requires sheet_holds { Holds sheet.now 0 a }
    requires certificate_holds { Holds certificate.now 0 b }
    requires sheet_room { length sheet.now ≡ base_bounds.sheet + 1 }
    requires certificate_room { length certificate.now ≡ base_bounds.certificate + 1 }
{
    let (Some(n), Some(m)) = (a, b) else {
        return say_unreadable(rt);
    };
    let mut room = [0u16; PLACES];
    say_set(rt, set, &sheet[..n], &certificate[..m], &mut room)
}

// Both files are tried before anything is judged; a set's name that is missing leaves the files' names missing too.
fn main(rt: HostRuntime) -> io::Result<()> {
    let mut sheet = [0u8; SHEET + 1];
    let mut certificate = [0u8; CERTIFICATE + 1];
    let set = set_argument(&rt);
    let a = loading::load(&rt, 2, &mut sheet);
    let b = loading::load(&rt, 3, &mut certificate);
    answer(&rt, set, a, &sheet, b, &certificate)
}
