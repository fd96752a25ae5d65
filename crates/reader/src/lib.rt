// A reader that holds the lent bytes and its place: thin methods over the functions of a slice and a number.
#![tactic(auto)]

ghost use Rattle.std.specs.Prelude.{◌≡◌};
ghost use Rattle.records.specs.Found.{FoundAt, DueBy};

use records::{Common, Kind, NoRecord, Record};
use rules::Fault;

#[derive(Clone, Copy, Debug)]
pub struct Reader<'a> {
    pub src: &'a [u8],
    pub at: usize,
}

impl<'a> Reader<'a> {
    // The reader at the top of the bytes.
    pub fn new(src: &'a [u8]) -> Reader<'a>
        ensures { (result.src ≡ src.entry) × (result.at ≡ 0) }
    {
        Reader { src, at: 0 }
    }

    // What stands at the reader's place.
    pub fn next(self) -> Result<Record, NoRecord>
        ensures { FoundAt self.entry.src.now self.entry.at result }
    {
        records::record_at(self.src, self.at)
    }

    // The whole record that is due at the reader's place, where only some kinds are allowed.
    pub fn due<F: FnOnce(Kind) -> bool>(self, faults: Common, allowed: F) -> Result<Record, Fault>
        requires { (k : _) → F.pre allowed k }
        ensures { DueBy (F.post allowed) self.entry.src.now self.entry.at faults result }
    {
        records::due_at(self.src, self.at, faults, allowed)
    }
}

// The first record of a sheet or a certificate.
pub fn first(s: &[u8]) -> Result<Record, NoRecord>
    ensures { FoundAt s.now 0 result }
{
    Reader::new(s).next()
}

// The record at an offset.
pub fn found_at(s: &[u8], at: usize) -> Result<Record, NoRecord>
    ensures { FoundAt s.now at result }
{
    Reader { src: s, at }.next()
}
