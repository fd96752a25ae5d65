// The kinds of records, and the byte of each.
ghost use Rattle.std.specs.Prelude.{◌≡◌};
ghost use Rattle.records.specs.Kinds.{byte_of, Decodes};

use std::fmt;

#[derive(Clone, Copy, Debug, PartialEq, Eq)]
pub enum Kind {
    Head,
    Start,
    Input,
    Coil,
    Constant,
    Not,
    And,
    Or,
    Rung,
    Condition,
    End,
    Step,
    Qed,
    Safe,
    Invariant,
    Trace,
    InputOn,
    Scan,
}

// A byte that is no kind.
#[derive(Clone, Copy, Debug, PartialEq, Eq)]
pub struct UnknownKind;

impl TryFrom<u8> for Kind {
    type Error = UnknownKind;

    ghost try_from_gives = { Decodes };

    // Inlined, so that a caller's match on the kind is one jump on the byte.
    #[inline(always)]
    fn try_from(byte: u8) -> Result<Self, UnknownKind> {
        match byte {
            0x01 => Ok(Kind::Head),
            0x02 => Ok(Kind::Start),
            0x10 => Ok(Kind::Input),
            0x11 => Ok(Kind::Coil),
            0x12 => Ok(Kind::Constant),
            0x13 => Ok(Kind::Not),
            0x14 => Ok(Kind::And),
            0x15 => Ok(Kind::Or),
            0x20 => Ok(Kind::Rung),
            0x21 => Ok(Kind::Condition),
            0x2F => Ok(Kind::End),
            0x40 => Ok(Kind::Step),
            0x41 => Ok(Kind::Qed),
            0x50 => Ok(Kind::Safe),
            0x51 => Ok(Kind::Invariant),
            0x60 => Ok(Kind::Trace),
            0x61 => Ok(Kind::InputOn),
            0x62 => Ok(Kind::Scan),
            _ => Err(UnknownKind),
        }
    }
}

impl From<Kind> for u8 {
    ghost from_gives = { λ k b. b ≡ byte_of k };

    fn from(kind: Kind) -> u8 {
        match kind {
            Kind::Head => 0x01,
            Kind::Start => 0x02,
            Kind::Input => 0x10,
            Kind::Coil => 0x11,
            Kind::Constant => 0x12,
            Kind::Not => 0x13,
            Kind::And => 0x14,
            Kind::Or => 0x15,
            Kind::Rung => 0x20,
            Kind::Condition => 0x21,
            Kind::End => 0x2F,
            Kind::Step => 0x40,
            Kind::Qed => 0x41,
            Kind::Safe => 0x50,
            Kind::Invariant => 0x51,
            Kind::Trace => 0x60,
            Kind::InputOn => 0x61,
            Kind::Scan => 0x62,
        }
    }
}

// The names of the rules.
impl fmt::Display for Kind {
    fn fmt<W: fmt::Write>(&self, f: &mut fmt::Formatter<W>) -> fmt::Result {
        f.write_str(match self {
            Kind::Head => "HEAD",
            Kind::Start => "START",
            Kind::Input => "INPUT contact",
            Kind::Coil => "COIL contact",
            Kind::Constant => "CONSTANT",
            Kind::Not => "NOT",
            Kind::And => "AND",
            Kind::Or => "OR",
            Kind::Rung => "RUNG",
            Kind::Condition => "CONDITION",
            Kind::End => "END",
            Kind::Step => "STEP",
            Kind::Qed => "QED",
            Kind::Safe => "SAFE",
            Kind::Invariant => "INVARIANT",
            Kind::Trace => "TRACE",
            Kind::InputOn => "INPUT-ON",
            Kind::Scan => "SCAN",
        })
    }
}
