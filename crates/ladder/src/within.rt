// The scan of any sheet bytes, where the lent places are enough for every sheet within the limits.
ghost use Rattle.ladder.specs.Scanned.{Roomy, ScansSheet};

use super::scan_once;
use rules::{Limits, Refusal};

// The whole sheet first; the places for its marks and for the stack are free.
pub fn scan_within(
    l: Limits,
    s: &[u8],
    inputs: &[u16],
    coils: &mut [u16],
    marks: &mut [u16],
    stack: &mut [u16],
) -> Result<bool, Refusal>
    requires { Roomy l inputs.now coils.old marks.old stack.old }
    ensures { ScansSheet l s.now inputs.now coils.old coils.new result }
{
    let h = sheets::read_sheet(l, s, marks)?;
    Ok(scan_once(s, h.rungs_at, h.rungs, inputs, coils, stack))
}
