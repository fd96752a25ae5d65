// Bytes, numbers and lines put into a lent room.
#![tactic(auto)]

ghost use Rattle.std.specs.Prelude.{[], ◌∷◌, ◌+◌, ◌≤◌, ◌<◌, length};
ghost use Rattle.writing.specs.Decimal.{decimal, ReadBack};
ghost use Rattle.writing.specs.Room.{numbered, pair_line, Put};

// One byte.
pub fn put_byte(out: &mut [u8], at: usize, b: u8) -> usize
    requires { at < length out.old }
    ensures { Put out.old out.new at (b ∷ []) result }
{
    out[at] = b;
    at + 1
}

// Some bytes.
pub fn put_text(out: &mut [u8], at: usize, text: &[u8]) -> usize
    requires { at + length text.now ≤ length out.old }
    ensures { Put out.old out.new at text.now result }
{
    let end = at + text.len();
    out[at..end].copy_from_slice(text);
    end
}

// A number's digits: those of a tenth, then the last.
#[tactic(auto, using(crate::proofs::DecimalLaws::decimal_one, crate::proofs::DecimalLaws::decimal_longer))]
pub fn put_number(out: &mut [u8], at: usize, n: usize) -> usize
    requires { at + length (decimal n) ≤ length out.old }
    ensures { Put out.old out.new at (decimal n) result }
{
    if n < 10 {
        return put_byte(out, at, b'0' + n as u8);
    }
    let next = put_number(out, at, n / 10);
    put_byte(out, next, b'0' + (n % 10) as u8)
}

// A word and a number.
pub fn put_numbered(out: &mut [u8], at: usize, word: &[u8], n: usize) -> usize
    requires { at + length (numbered word.now n) ≤ length out.old }
    ensures { Put out.old out.new at (numbered word.now n) result }
{
    let next = put_text(out, at, word);
    put_number(out, next, n)
}

// A line of two words, each with a number.
pub fn put_pair(out: &mut [u8], first: &[u8], n: usize, second: &[u8], m: usize) -> usize
    requires { length (pair_line first.now n second.now m) ≤ length out.old }
    ensures { Put out.old out.new 0 (pair_line first.now n second.now m) result }
{
    let next = put_numbered(out, 0, first, n);
    let end = put_numbered(out, next, second, m);
    put_byte(out, end, b'\n')
}

// Nothing to run: a number's digits read back as the number.
#[tactic(auto, using(crate::proofs::DecimalLaws::read_back))]
pub fn digits_read_back()
    ensures { ReadBack }
{}
