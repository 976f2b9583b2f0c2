// A whole sheet, before anything is written to the caller's tables.
ghost use Rattle.sheet.specs.Filled.{ReadsInto};
ghost use Rattle.sheet.specs.Sections.{room_of};

use crate::parts::{Capacity, Lists, Outline};
use crate::reader::Reader;
use crate::sections::read_sections;
use refusal::Refusal;
use sheet_format::{Fault, MOST_BYTES};

// Reads a whole sheet, each section to the front of its list.
pub(crate) fn read_whole(sheet: &[u8], room: Capacity, lists: &mut Lists) -> Result<Outline, Fault>
    ensures { ReadsInto (room_of room) sheet.now lists.new result }
{
    if sheet.len() > MOST_BYTES {
        return Err(Fault::new(Refusal::TooLong, 0, 0));
    }
    let mut reader = Reader {
        sheet,
        at: 0,
        line: 1,
    };
    let outline = read_sections(&mut reader, room, lists)?;
    if reader.at < sheet.len() {
        return Err(Fault::new(Refusal::PastTheEnd, reader.line, 0));
    }
    Ok(outline)
}
