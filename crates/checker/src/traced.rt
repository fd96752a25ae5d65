// A trace over a good sheet: the start values, then the replay.
ghost use Rattle.std.specs.Prelude.{◌≡◌};
ghost use Rattle.checker.specs.Traced.{starts_of, TracedAt, Traces, PlayedAt, Plays};

use rules::{Answer, Limits, Refusal, Sheet};
use sheets::Outline;
use trace::Ladder;

// How many STARTs stand before the rungs.
fn starts_of(h: Outline) -> usize
    ensures { result ≡ starts_of h }
{
    h.rungs_at.saturating_sub(7) / 4
}

// The replay on lent places: all inputs are off, and the coils are as the sheet starts them.
fn play(
    l: Limits,
    s: &[u8],
    c: &[u8],
    h: Outline,
    inputs: &mut [u16],
    coils: &mut [u16],
    stack: &mut [u16],
) -> Result<Answer, Refusal>
    requires { PlayedAt l s.now c.now h inputs.old coils.old stack.old }
    ensures { Plays l s.now c.now h inputs.old coils.old stack.old result }
{
    base::clear(inputs, inputs.len());
    base::clear(coils, coils.len());
    ladder::initialise(s, 7, starts_of(h), coils);
    let t = Ladder {
        sheet: s,
        from: h.rungs_at,
        rungs: h.rungs,
        inputs: h.inputs,
    };
    trace::replay(l, t, c, inputs, coils, stack)
}

// A trace over a good sheet. Its places are no part of the stack where the certificate is no trace.
#[inline(never)]
pub fn judge_trace(l: Limits, s: &[u8], c: &[u8], h: Outline) -> Result<Answer, Refusal>
    requires { TracedAt l s.now c.now h }
    ensures { Traces l s.now c.now h result }
{
    let mut inputs = [0u16; Sheet::INPUTS];
    let mut coils = [0u16; Sheet::COILS];
    let mut stack = [0u16; Sheet::DEPTH];
    play(l, s, c, h, &mut inputs, &mut coils, &mut stack)
}
