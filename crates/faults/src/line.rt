// What stands at the place of a refusal of a sheet.
use crate::cursor::seek;
use crate::record::put_record;
use std::fmt::{self, Write};
use text::Line;

const COUNT_TOO_BIG: u8 = 2;

const LEFT_OVER: u8 = 11;

// What is wrong in a sheet that `sheet::check` refuses with this number and place.
pub fn put_sheet_detail(line: &mut Line, sheet: &[u8], number: u8, place: usize) {
    // A line takes what there is room for, and never fails.
    let _ = put_detail(line, sheet, number, place);
}

fn put_detail(line: &mut Line, sheet: &[u8], number: u8, place: usize) -> fmt::Result {
    let there = peek::byte_at(sheet, place);
    if number == LEFT_OVER {
        return write!(line, "byte {there:02X} hex after the last section");
    }
    let here = seek(sheet, place);
    line.write_str(text::section_name(here.section))?;
    match here.record {
        None => put_count(line, number, there, records::most(here.section)),
        Some(record) => put_record(line, sheet, number, here, record),
    }
}

// A count at fault: it is missing, or above the section's most.
fn put_count(line: &mut Line, number: u8, count: u8, most: usize) -> fmt::Result {
    if number == COUNT_TOO_BIG {
        write!(line, ": count {count}, where {most} is the most")
    } else {
        write!(line, ": the count is missing")
    }
}
