// A record at fault: where it stands in its section, its slot and its label, and the value.
use crate::cursor::{Cursor, Nth, first_alike};
use crate::values::put_value;
use records::{label, record_size, slot};
use std::fmt::{self, Write};
use text::{Line, Plain};

const INCOMPLETE: u8 = 1;

const SLOT_NOT_RISING: u8 = 4;

const LABEL_TAKEN: u8 = 19;

pub(crate) fn put_record(
    line: &mut Line,
    sheet: &[u8],
    number: u8,
    here: Cursor,
    nth: Nth,
) -> fmt::Result {
    let size = record_size(here.section);
    let rest = peek::suffix(sheet, here.at);
    write!(line, ", record {}", nth.number)?;
    if number == INCOMPLETE {
        return write!(line, ": {} of its {size} bytes are there", rest.len());
    }
    let record = peek::prefix(rest, size);
    write!(line, ", slot {} '{}': ", slot(record), Plain(label(record)))?;
    match number {
        SLOT_NOT_RISING => {
            let before = peek::suffix(sheet, here.at.saturating_sub(size));
            write!(line, "slot {} after slot {}", slot(record), slot(before))
        }
        LABEL_TAKEN => put_alike(line, sheet, first_alike(sheet, here)),
        _ => put_value(line, number, here.section, record),
    }
}

// The earlier record that has the label.
fn put_alike(line: &mut Line, sheet: &[u8], earlier: Cursor) -> fmt::Result {
    let number = earlier.record.map_or(0, |nth| nth.number);
    let slot = slot(peek::suffix(sheet, earlier.at));
    write!(line, "the same label as record {number}, slot {slot}")
}
