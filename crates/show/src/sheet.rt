// A sheet as text: the offset, then the count of a section, or a record's slot, label and description.
use crate::state_text::put_state;
use faults::Cursor;
use peek::field;
use records::{description, label, record_size, slot};
use std::fmt::{self, Write};
use text::{Hex8, Line, Padded, Plain, Section};

// The lines of the first `end` bytes, which are whole counts and records.
pub fn put_sheet(line: &mut Line, sheet: &[u8], end: usize) {
    let mut here = Cursor::start();
    while here.at < end {
        // A line takes what there is room for, and never fails.
        let _ = put_place(line, sheet, here);
        here = here.next(sheet, end);
    }
}

fn put_place(line: &mut Line, sheet: &[u8], here: Cursor) -> fmt::Result {
    let bytes = peek::suffix(sheet, here.at);
    write!(line, "{}  ", Padded(here.at))?;
    match here.record {
        None => put_count(line, here.section, peek::byte_at(bytes, 0))?,
        Some(_) => put_record(
            line,
            here.section,
            peek::prefix(bytes, record_size(here.section)),
        )?,
    }
    line.write_str("\n")
}

fn put_count(line: &mut Line, section: usize, count: u8) -> fmt::Result {
    write!(line, "{}: {count}", text::section_name(section))
}

fn put_record(line: &mut Line, section: usize, record: &[u8]) -> fmt::Result {
    write!(line, "slot {} ", slot(record))?;
    write!(line, "\"{}\"", Plain(label(record)))?;
    put_description(line, section, description(record))
}

fn put_description(line: &mut Line, section: usize, description: &[u8]) -> fmt::Result {
    match text::section_at(section) {
        Some(Section::Terms) => put_term(line, description),
        Some(Section::Ranges) => put_range(line, description),
        Some(Section::Edges) => put_edge(line, description),
        Some(Section::Sums) => put_operations(line, description),
        Some(Section::States) => put_state(line, description),
        None => Ok(()),
    }
}

fn put_term(line: &mut Line, description: &[u8]) -> fmt::Result {
    let target = Hex8(field(description, 0));
    let mask = Hex8(field(description, 1));
    write!(line, " target {target} mask {mask}")
}

fn put_range(line: &mut Line, description: &[u8]) -> fmt::Result {
    let lower = Hex8(field(description, 0));
    let upper = Hex8(field(description, 1));
    let mask = Hex8(field(description, 2));
    write!(line, " lower {lower} upper {upper} mask {mask}")
}

fn put_edge(line: &mut Line, description: &[u8]) -> fmt::Result {
    let rise = Hex8(field(description, 0));
    let fall = Hex8(field(description, 1));
    let neither = Hex8(field(description, 2));
    write!(line, " rise {rise} fall {fall} neither {neither}")
}

fn put_operations(line: &mut Line, operations: &[u8]) -> fmt::Result {
    for (i, code) in operations.iter().enumerate() {
        write!(
            line,
            " {} {}",
            text::stage_name(i),
            text::operation_name(*code)
        )?;
    }
    Ok(())
}
