// The checker: any sheet bytes, any certificate bytes and a lent workspace; accepted, confirmed or refused.
#![tactic(auto)]

mod judged;
mod refuted;
mod traced;

ghost use Rattle.rules.specs.Head.{base_limits};
ghost use Rattle.checker.specs.Checked.{Checked};

use rules::{Answer, Fault, Refusal, Sheet};

// The workspace is too short, and none of it changes; or its own places are zero afterwards and the others as they were.
pub fn check(sheet: &[u8], certificate: &[u8], work: &mut [u16]) -> Result<Answer, Refusal>
    ensures { Checked base_limits sheet.now certificate.now work.old work.new result }
{
    let l = Sheet::limits();
    if work.len() < l.places {
        return Err(Fault::ShortWorkspace.at(0));
    }
    let answer = judged::judge_bytes(l, sheet, certificate, &mut work[..l.places]);
    base::clear(work, l.places);
    answer
}
