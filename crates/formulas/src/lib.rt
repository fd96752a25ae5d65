// A formula record at an offset of bytes.
#![tactic(auto)]

ghost use Rattle.std.specs.Prelude.{◌≡◌, drop};
ghost use Rattle.formulas.specs.Part.{part_of, length_of};

use records::Kind;

// A formula record, or a record that closes the formula (so for any other byte, and where none is left).
#[derive(Clone, Copy, Debug, PartialEq, Eq)]
pub enum Part {
    Input(u16),
    Coil(u16),
    Constant(bool),
    Not,
    And,
    Or,
    Closing,
}

// Inlined into the two loops over a formula's records, which would else take each part through memory.
#[inline(always)]
#[tactic(auto, using(crate::proofs::PartLaws::part_at_cases))]
pub fn part_at(s: &[u8], at: usize) -> Part
    ensures { result ≡ part_of (drop at s.now) }
{
    let Ok(kind) = Kind::try_from(records::byte_at(s, at, 0)) else {
        return Part::Closing;
    };
    match kind {
        Kind::Input => Part::Input(records::number_at(s, at, 1)),
        Kind::Coil => Part::Coil(records::number_at(s, at, 1)),
        Kind::Constant => Part::Constant(records::byte_at(s, at, 1) == 1),
        Kind::Not => Part::Not,
        Kind::And => Part::And,
        Kind::Or => Part::Or,
        _ => Part::Closing,
    }
}

// How many bytes a formula record takes, its kind byte included.
pub fn part_length(p: Part) -> usize
    ensures { result ≡ length_of p }
{
    match p {
        Part::Input(_) | Part::Coil(_) => 3,
        Part::Constant(_) => 2,
        Part::Not | Part::And | Part::Or => 1,
        Part::Closing => 0,
    }
}
