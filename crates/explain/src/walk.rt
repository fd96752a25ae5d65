// The whole records of some bytes, one after another.
ghost use Rattle.std.specs.Prelude.{◌≡◌, ◌-◌, length};
ghost use Rattle.std.specs.Iterator.{at_most};

use records::Record;

// Each record comes with the place where it begins; the walk ends at `end`, or where no whole record stands.
#[derive(Drop)]
pub struct Records<'a> {
    bytes: &'a [u8],
    at: usize,
    end: usize,
}

// The records that begin before a place.
pub fn before(bytes: &[u8], place: usize) -> Records<'_>
    ensures { result.bytes.now ≡ bytes.now }
{
    Records {
        bytes,
        at: 0,
        end: place,
    }
}

// The records from a place on.
pub fn from(bytes: &[u8], place: usize) -> Records<'_> {
    Records {
        bytes,
        at: place,
        end: bytes.len(),
    }
}

impl<'a> Iterator for Records<'a> {
    type Item = (usize, Record);

    ghost remaining = { λ s. at_most (length s.bytes.now - s.at) };

    #[tactic(auto, using(crate::proofs::WalkLaws::nears))]
    fn next(&mut self) -> Option<(usize, Record)> {
        let at = self.at;
        if self.end <= at {
            return None;
        }
        let record = records::record_at(self.bytes, at).ok()?;
        self.at = record.next;
        Some((at, record))
    }
}
