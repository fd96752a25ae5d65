// The whole sheet first, then the certificate: a trace or a safety certificate.
ghost use Rattle.std.specs.Prelude.{◌≤◌};
ghost use Rattle.sheets.specs.Answer.{Says};
ghost use Rattle.checker.specs.Checked.{JudgesSafe, OpenedFor, JudgesOpened, Lent, JudgesBytes};

use super::refuted::judge_refutations;
use super::traced::judge_trace;
use clauses::Layout;
use rules::{Answer, Limits, Refusal, Sheet};
use sheets::{Opening, Outline};

// A safety certificate: its invariant, then the refutations.
fn judge_safe(
    l: Limits,
    s: &[u8],
    c: &[u8],
    h: Outline,
    work: &mut [u16],
) -> Result<Answer, Refusal>
    requires { OpenedFor l s.now c.now h work.old }
    ensures { JudgesSafe l s.now c.now h work.old result }
{
    let invariant = sheets::read_invariant(l, h.coils, c)?;
    judge_refutations(l, s, c, Layout::of(h), invariant.end + 1, work)
}

// A certificate over a good sheet.
fn judge_opened(
    l: Limits,
    s: &[u8],
    c: &[u8],
    h: Outline,
    work: &mut [u16],
) -> Result<Answer, Refusal>
    requires { OpenedFor l s.now c.now h work.old }
    ensures { JudgesOpened l s.now c.now h work.old result }
{
    match sheets::open(c, true)? {
        Opening::Trace => judge_trace(l, s, c, h),
        Opening::Safe => judge_safe(l, s, c, h, work),
    }
}

// The sheet, read with marks that are no part of the stack afterwards.
#[inline(never)]
fn outline(l: Limits, s: &[u8]) -> Result<Outline, Refusal>
    requires { l.coils ≤ 256 }
    ensures { Says l s.now result }
{
    let mut marks = [0u16; Sheet::COILS];
    sheets::read_sheet(l, s, &mut marks)
}

// Any bytes, in a workspace that is long enough.
pub fn judge_bytes(l: Limits, s: &[u8], c: &[u8], work: &mut [u16]) -> Result<Answer, Refusal>
    requires { Lent l work.old }
    ensures { JudgesBytes l s.now c.now result }
{
    let h = outline(l, s)?;
    judge_opened(l, s, c, h, work)
}
