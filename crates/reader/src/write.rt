// The sheet, from the reader's room: section by section.
ghost use Rattle.std.specs.Prelude.{◌≡◌, ◌≤◌, ◌<◌, length};
ghost use Rattle.buffer.specs.Room.{bytes, Delivered};
ghost use Rattle.kinds.specs.Table.{sections};
ghost use Rattle.reader.specs.Taking.{part_of, parts_from};

use crate::keep::PART;
use buffer::{OUTPUT_TOO_SHORT, Outcome};
use kinds::SECTIONS;

// What the room holds of a section.
fn part<'a>(room: &'a [u8], section: usize) -> &'a [u8]
    requires { section < sections }
    ensures { (result.now ≡ part_of section room.now) × (length result.now ≤ 262144) }
{
    let start = PART * section;
    let size = records::section_size(section, peek::byte_at(room, start));
    peek::prefix(peek::suffix(room, start), size)
}

// How many bytes the sheet has.
fn sheet_size(room: &[u8]) -> usize
    ensures { result ≡ length (parts_from sections 0 room.now) }
{
    let mut size = 0;
    for section in 0..SECTIONS {
        size += part(room, section).len();
    }
    size
}

// The sheet that the room holds: the caller's room is judged first, then each section is written behind the one before.
pub(crate) fn put_sheet(out: &mut [u8], room: &[u8]) -> Outcome
    ensures { Delivered (bytes (parts_from sections 0 room.now)) out.old result out.new }
{
    let needed = sheet_size(room);
    if out.len() < needed {
        return Outcome::Refused(OUTPUT_TOO_SHORT, needed);
    }
    let mut at = 0;
    for section in 0..SECTIONS {
        let bytes = part(room, section);
        buffer::put_bytes(&mut out[at..], bytes);
        at += bytes.len();
    }
    Outcome::Done(needed)
}
