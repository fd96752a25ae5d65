// The translator: one of the three clause sets, for a supplier's prover.
ghost use Rattle.std.specs.Prelude.{length};
ghost use Rattle.rules.specs.ReadSheet.{read_sheet};
ghost use Rattle.rules.specs.Verdict.{which_of, translate_sheet};
ghost use Rattle.clauses.specs.Sets.{Slight, SetThere};
ghost use Rattle.clauses.specs.Translated.{Did, SetCounted, SetTranslated, SheetThere, CertificateTranslated};

use super::Layout;
use super::sets::write_clauses;
use rules::{Fault, Limits, Refusal, Set, Sheet};
use sheets::Outline;

// How many clauses a set has; without room none of them is written.
#[tactic(auto, using(crate::proofs::TranslateLaws::set_counted))]
fn count_set(set: Set, s: &[u8], c: &[u8], h: Layout) -> usize
    requires { SetThere s.now c.now h }
    ensures { SetCounted (which_of set) s.now c.now h result }
{
    write_clauses(set, s, c, h, &mut [])
}

// The set is counted first, and written where there is room for all of it.
#[tactic(auto, using(crate::proofs::TranslateLaws::all_placed))]
fn write_set(set: Set, s: &[u8], c: &[u8], h: Layout, room: &mut [u16]) -> Result<usize, Refusal>
    requires { SetThere s.now c.now h }
    ensures { SetTranslated (which_of set) s.now c.now h room.old room.new result }
{
    let count = count_set(set, s, c, h);
    if room.len() / 3 < count {
        return Err(Fault::ShortRoom.at(0));
    }
    write_clauses(set, s, c, h, room);
    Ok(count)
}

// The certificate's first record and its invariant, then the set.
#[tactic(auto, using(crate::proofs::TranslateLaws::fitting))]
fn translate_certificate(
    l: Limits,
    set: Set,
    s: &[u8],
    c: &[u8],
    h: Outline,
    room: &mut [u16],
) -> Result<usize, Refusal>
    requires { SheetThere l s.now h }
    ensures { CertificateTranslated l (which_of set) s.now c.now room.old room.new result }
{
    sheets::open(c, false)?;
    sheets::read_invariant(l, h.coils, c)?;
    write_set(set, s, c, Layout::of(h), room)
}

// The sheet, then the certificate.
#[tactic(auto, using(crate::proofs::TranslateLaws::sheet_there))]
pub(crate) fn translate_sheet(
    l: Limits,
    set: Set,
    s: &[u8],
    c: &[u8],
    room: &mut [u16],
) -> Result<usize, Refusal>
    requires { Slight l }
    ensures { Did (translate_sheet l (length room.old) (which_of set) c.now (read_sheet l s.now)) room.old room.new result }
{
    let mut marks = [0u16; Sheet::COILS];
    let h = sheets::read_sheet(l, s, &mut marks)?;
    translate_certificate(l, set, s, c, h, room)
}
