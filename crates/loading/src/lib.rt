// The file that one of the program's arguments names, read into lent bytes.
#![tactic(auto)]

ghost use Rattle.std.specs.Prelude.{length, ◌≤◌};
ghost use Rattle.loading.specs.Loading.{Holds};

use std::env::Env;
use std::fs::Files;
use std::io::{Print, Read};
use std::{fs, io};

// Room for any path, which an argument may be.
pub const PATH: usize = 4096;

// The count that one read gives, or none where it fails. It is not taken on trust: it is tested where it is used.
fn count_read<F: Read>(file: &mut F, buf: &mut [u8]) -> Option<usize> {
    file.read(buf).ok()
}

// One read into buf from a place on: how many bytes came, 0 at the end, or none where it failed.
fn read_some<F: Read>(file: &mut F, buf: &mut [u8], from: usize) -> Option<usize>
    requires { from ≤ length buf.old }
    ensures { Holds buf.new from result }
{
    let left = buf.len() - from;
    count_read(file, &mut buf[from..]).filter(|n| *n <= left)
}

// Reads until buf is full or the file ends.
fn fill<F: Read>(file: &mut F, buf: &mut [u8]) -> Option<usize>
    ensures { Holds buf.new 0 result }
{
    let mut done: usize = 0;
    // How far each read comes is known only after it.
    while done < buf.len() {
        let n = read_some(file, buf, done)?;
        if n == 0 {
            break;
        }
        done += n;
    }
    Some(done)
}

// The first bytes of the file that argument number i names, as many as buf has room for. It is None where the argument is missing,
// or where the file cannot be opened or read, as a directory cannot.
pub fn load<R: Env + Files>(rt: &R, i: usize, buf: &mut [u8]) -> Option<usize>
    ensures { Holds buf.new 0 result }
{
    let mut path = [0u8; PATH];
    let length = rt.arg(i, &mut path).ok()?;
    let name = str::from_utf8(&path[..length]).ok()?;
    let mut file = fs::open(rt, name).ok()?;
    fill(&mut file, buf)
}
