// The value at fault in a record, beside what it could be.
ghost use Rattle.std.specs.Prelude.{◌<◌, ◌≤◌};

use crate::fields::put_state;
use records::{description, label, slot};
use std::fmt::{self, Write};
use text::Line;

// The value that a record is refused for: 3, 5 to 10 and 18.
pub(crate) fn put_value(line: &mut Line, number: u8, section: usize, record: &[u8]) -> fmt::Result {
    match number {
        3 => put_slot(line, slot(record), records::most(section)),
        5 => put_label_byte(line, label(record)),
        6 => write!(line, "lower 0, where 1 is the least"),
        7 => put_bounds(line, description(record)),
        8 => put_upper(line, description(record)),
        9 => put_events(line, description(record)),
        10 => put_operation(line, description(record)),
        18 => put_state(line, description(record)),
        _ => Ok(()),
    }
}

fn put_slot(line: &mut Line, slot: u8, most: usize) -> fmt::Result {
    write!(line, "slot {slot}, where slots are below {most}")
}

// The first byte that no label may have.
fn put_label_byte(line: &mut Line, label: &[u8]) -> fmt::Result {
    let i = first_outside(label, 0x20, 0x7e);
    let byte = peek::byte_at(label, i);
    write!(
        line,
        "label byte {i} (from 0) is {byte:02X} hex, where 20 to 7E may stand"
    )
}

// The index of the first byte that is not from `low` to `high`.
pub(crate) fn first_outside(bytes: &[u8], low: u8, high: u8) -> usize {
    bytes
        .iter()
        .position(|byte| !(low..=high).contains(byte))
        .unwrap_or(bytes.len())
}

fn put_bounds(line: &mut Line, description: &[u8]) -> fmt::Result {
    let lower = peek::u32_at(description, 0);
    let upper = peek::u32_at(description, 4);
    write!(line, "lower {lower}, where upper is {upper}")
}

fn put_upper(line: &mut Line, description: &[u8]) -> fmt::Result {
    let upper = peek::u32_at(description, 4);
    let lines = peek::u32_at(description, 8).count_ones();
    write!(line, "upper {upper}, where ")?;
    match lines {
        0 => write!(line, "no line is masked"),
        1 => write!(line, "one masked line holds at most 1"),
        _ => write!(
            line,
            "{} masked lines hold at most {}",
            Count(lines),
            greatest(lines)
        ),
    }
}

// A number of things: up to twelve in a word.
#[derive(Clone, Copy)]
struct Count(u32);

impl fmt::Display for Count {
    fn fmt<W: Write>(&self, f: &mut fmt::Formatter<W>) -> fmt::Result {
        match self.0 {
            2 => f.write_str("two"),
            3 => f.write_str("three"),
            4 => f.write_str("four"),
            5 => f.write_str("five"),
            6 => f.write_str("six"),
            7 => f.write_str("seven"),
            8 => f.write_str("eight"),
            9 => f.write_str("nine"),
            10 => f.write_str("ten"),
            11 => f.write_str("eleven"),
            12 => f.write_str("twelve"),
            n => write!(f, "{n}"),
        }
    }
}

// The greatest number that so many lines hold.
fn greatest(lines: u32) -> u32
    requires some { 0 < lines }
    requires no_more { lines ≤ 32 }
{
    u32::MAX >> (32 - lines)
}

fn put_events(line: &mut Line, description: &[u8]) -> fmt::Result {
    let rise = peek::u32_at(description, 0);
    let fall = peek::u32_at(description, 4);
    let neither = peek::u32_at(description, 8);
    let shared = (rise & fall & neither).trailing_zeros();
    write!(
        line,
        "rise {rise:08X}, fall {fall:08X}, neither {neither:08X}, all three on line {shared}"
    )
}

// The first operation that there is not.
fn put_operation(line: &mut Line, operations: &[u8]) -> fmt::Result {
    let i = first_outside(operations, 0, 9);
    write!(
        line,
        "operation {} is {}, where 9 is the greatest",
        text::stage_name(i),
        peek::byte_at(operations, i)
    )
}
