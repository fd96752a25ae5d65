// What the program says of two files' bytes: one that is too long is refused, the rest is the checker's.
#![tactic(auto)]

ghost use Rattle.std.specs.Prelude.{◌≡◌};
ghost use Rattle.rules.specs.Head.{base_limits};
ghost use Rattle.files.specs.Files.{base_bounds, too_long, Judged, Translates, CutIsEnough};

use rules::{Answer, Fault, Refusal, Set};

// bytes of a sheet file
pub const SHEET: usize = 4873;

// bytes of a certificate file
pub const CERTIFICATE: usize = 49218;

// Is one of them over its bound? A file may come cut one byte past it.
#[tactic(auto, unfolding(crate::specs::Files::too_long))]
fn too_long(sheet: &[u8], certificate: &[u8]) -> bool
    ensures { result ≡ too_long base_bounds sheet.now certificate.now }
{
    SHEET < sheet.len() || CERTIFICATE < certificate.len()
}

// The checker's answer, after 27.
#[tactic(auto, using(crate::proofs::FilesLaws::judge_files_cases))]
pub fn judge_files(sheet: &[u8], certificate: &[u8], work: &mut [u16]) -> Result<Answer, Refusal>
    ensures { Judged base_limits base_bounds sheet.now certificate.now work.old work.new result }
{
    if too_long(sheet, certificate) {
        return Err(Fault::FileSize.at(0));
    }
    checker::check(sheet, certificate, work)
}

// The translator's answer, after 29 and 27.
pub fn translate_files(
    set: u32,
    sheet: &[u8],
    certificate: &[u8],
    room: &mut [u16],
) -> Result<usize, Refusal>
    ensures { Translates base_limits base_bounds set sheet.now certificate.now room.old room.new result }
{
    Set::try_from(set)?;
    if too_long(sheet, certificate) {
        return Err(Fault::FileSize.at(0));
    }
    clauses::translate(set, sheet, certificate, room)
}

// Nothing to run: what the program reads of two files is judged as the whole files are.
#[tactic(auto, using(crate::proofs::PastLaws::cut_is_enough))]
pub fn cut_is_enough()
    ensures { CutIsEnough }
{}
