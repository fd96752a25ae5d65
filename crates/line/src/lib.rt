// The program's line for an answer, byte by byte.
#![tactic(auto)]

ghost use Rattle.std.specs.Prelude.{◌≡◌, ◌≤◌, length};
ghost use Rattle.rules.specs.Verdict.{Verdict};
ghost use Rattle.writing.specs.Room.{enough, Put, Lined};
ghost use Rattle.line.specs.Line.{line_of, confirmed_line, refused_line, unreadable_line, told_of, told_verdict, Tells};

use rules::{Answer, Refusal};

// A room of this many bytes holds any line.
pub const ROOM: usize = 64;

// A refusal as a line tells it, whatever its number.
#[derive(Clone, Copy, Debug, PartialEq, Eq)]
pub struct Told {
    pub number: u8,
    pub place: usize,
}

impl From<Refusal> for Told {
    ghost from_gives = { λ x t. t ≡ told_of x };

    fn from(refusal: Refusal) -> Told {
        Told {
            number: u8::from(refusal.fault),
            place: refusal.place,
        }
    }
}

#[tactic(auto, using(writing::proofs::DecimalLaws::digits_fit))]
fn put_confirmed(out: &mut [u8], scan: usize) -> usize
    requires { enough ≤ length out.old }
    ensures { Put out.old out.new 0 (confirmed_line scan) result }
{
    let end = writing::put_numbered(out, 0, b"confirmed scan ", scan);
    writing::put_byte(out, end, b'\n')
}

fn put_refused(out: &mut [u8], told: Told) -> usize
    requires { enough ≤ length out.old }
    ensures { Put out.old out.new 0 (refused_line told.number told.place) result }
{
    let number = usize::from(told.number);
    writing::put_pair(out, b"refused ", number, b" at ", told.place)
}

// The line of an answer that is told as it is.
#[tactic(auto, using(writing::proofs::RoomLaws::line_cases), unfolding(crate::specs::Line::line_of, crate::specs::Line::told_verdict, rules::specs::Verdict::answer_of))]
fn write_told(answer: Result<Answer, Told>, out: &mut [u8]) -> usize
    ensures { Lined (line_of (told_verdict answer)) out.old out.new result }
{
    if out.len() < ROOM {
        return 0;
    }
    match answer {
        Ok(Answer::Accepted) => writing::put_text(out, 0, b"accepted\n"),
        Ok(Answer::Confirmed { scan }) => put_confirmed(out, scan),
        Err(told) => put_refused(out, told),
    }
}

// The line of an answer and its line feed, and how many bytes they are; a room of fewer than 64 bytes is left alone.
#[tactic(auto, unfolding(crate::specs::Line::Tells))]
pub fn write_line<E: Into<Told>>(answer: Result<Answer, E>, out: &mut [u8]) -> usize
    ensures { (v : Verdict) × Tells E.converts answer v × Lined (line_of v) out.old out.new result }
{
    match answer {
        Ok(answer) => write_told(Ok(answer), out),
        Err(refusal) => write_told(Err(refusal.into()), out),
    }
}

// The line where a file cannot be read.
#[tactic(auto, using(writing::proofs::RoomLaws::line_cases))]
pub fn write_unreadable(out: &mut [u8]) -> usize
    ensures { Lined unreadable_line out.old out.new result }
{
    if out.len() < ROOM {
        return 0;
    }
    writing::put_text(out, 0, b"unreadable\n")
}
