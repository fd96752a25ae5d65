// The records of a refutation, at any offset of a certificate.
ghost use Rattle.std.specs.Prelude.{◌≡◌, []};
ghost use Rattle.refutation.specs.Judging.{MarkAt};

use super::Numbers;
use records::{Common, Kind};
use rules::Fault;

// A record where STEP and QED are allowed.
#[derive(Clone, Copy, Debug, PartialEq, Eq)]
pub(crate) enum Mark {
    Step(Numbers),
    Qed,
}

// A mark, and the place after its record.
#[derive(Clone, Copy, Debug, PartialEq, Eq)]
pub(crate) struct Marked {
    pub(crate) mark: Mark,
    pub(crate) next: usize,
}

// What stands at an offset.
pub(crate) fn mark_at(c: &[u8], at: usize) -> Result<Marked, Fault>
    ensures { MarkAt c.now at result }
{
    let record = records::due_at(c, at, Common::CERTIFICATE, |kind| {
        matches!(kind, Kind::Step | Kind::Qed)
    })?;
    let mark = match record.kind {
        Kind::Qed => Mark::Qed,
        _ => Mark::Step(Numbers {
            first: records::number_at(c, at, 1),
            second: records::number_at(c, at, 3),
            pivot: records::number_at(c, at, 5),
        }),
    };
    Ok(Marked {
        mark,
        next: record.next,
    })
}
