// The functions for other languages: an answer is a number, and what goes with it is written through references.
#![tactic(auto)]

ghost use Rattle.rules.specs.Head.{base_limits};
ghost use Rattle.export.specs.Exported.{CheckExported, TranslateExported};

use rules::Answer;

// 0 accepted, 1 confirmed with the scan as number, 2 refused with number and place.
#[unsafe(no_mangle)]
pub extern "C" fn gustvane_check(
    sheet: &[u8],
    certificate: &[u8],
    work: &mut [u16],
    number: &mut usize,
    place: &mut usize,
) -> u8
    ensures { CheckExported base_limits sheet.now certificate.now work.old work.new number.new place.new result }
{
    match checker::check(sheet, certificate, work) {
        Ok(Answer::Accepted) => {
            *number = 0;
            *place = 0;
            0
        }
        Ok(Answer::Confirmed { scan }) => {
            *number = scan;
            *place = 0;
            1
        }
        Err(refusal) => {
            *number = usize::from(u8::from(refusal.fault));
            *place = refusal.place;
            2
        }
    }
}

// 0 written with the count of clauses as number, 2 refused with number and place.
#[unsafe(no_mangle)]
pub extern "C" fn gustvane_translate(
    set: u32,
    sheet: &[u8],
    certificate: &[u8],
    room: &mut [u16],
    number: &mut usize,
    place: &mut usize,
) -> u8
    ensures { TranslateExported base_limits set sheet.now certificate.now room.old room.new number.new place.new result }
{
    match clauses::translate(set, sheet, certificate, room) {
        Ok(count) => {
            *number = count;
            *place = 0;
            0
        }
        Err(refusal) => {
            *number = usize::from(u8::from(refusal.fault));
            *place = refusal.place;
            2
        }
    }
}
