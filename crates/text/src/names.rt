// What each thing is called: one match for each question.

ghost use Rattle.std.specs.Prelude.{◌≡◌, ltb};
ghost use Rattle.records.specs.Sections.{sections};
ghost use Rattle.text.specs.Sections.{is_named};

use crate::Section;
use kinds::{EDGES, RANGES, STATES, SUMS, TERMS};

// None where no sheet has the section.
pub fn section_at(number: usize) -> Option<Section>
    ensures { is_named result ≡ ltb number sections }
{
    match number {
        TERMS => Some(Section::Terms),
        RANGES => Some(Section::Ranges),
        EDGES => Some(Section::Edges),
        SUMS => Some(Section::Sums),
        STATES => Some(Section::States),
        _ => None,
    }
}

pub fn section_name(number: usize) -> &'static str {
    match section_at(number) {
        Some(Section::Terms) => "terms",
        Some(Section::Ranges) => "ranges",
        Some(Section::Edges) => "edges",
        Some(Section::Sums) => "sums",
        Some(Section::States) => "states",
        None => "sections",
    }
}

// Operation byte i of a sum: which stage it sets.
pub fn stage_name(i: usize) -> &'static str {
    match i {
        0 => "ab",
        1 => "c",
        2 => "d",
        3 => "e",
        4 => "fg",
        5 => "h",
        6 => "i",
        7 => "j",
        8 => "mid1",
        9 => "mid2",
        _ => "final",
    }
}

// Source i of a sum: a slot, or one of the two timers.
pub fn source_name(i: usize) -> &'static str {
    match i {
        0 => "TERM 00",
        1 => "TERM 01",
        2 => "TERM 02",
        3 => "TERM 03",
        4 => "TERM 04",
        5 => "TERM 05",
        6 => "TERM 06",
        7 => "TERM 07",
        8 => "TERM 08",
        9 => "TERM 09",
        10 => "RANG 00",
        11 => "RANG 01",
        12 => "EDGE 00",
        13 => "EDGE 01",
        14 => "timer 1",
        _ => "timer 2",
    }
}

pub fn operation_name(code: u8) -> &'static str {
    match code {
        0 => "NOP",
        1 => "ANY",
        2 => "AND",
        3 => "NAND",
        4 => "OR",
        5 => "NOR",
        6 => "XOR",
        7 => "NXOR",
        8 => "A",
        9 => "B",
        _ => "?",
    }
}

// Where a state's else state and its flags stand in a description, behind the number.
pub const ELSE_STATE: usize = 4;

pub const FLAGS: usize = 5;

// Flag byte i of a state.
pub fn flag_name(i: usize) -> &'static str {
    match i {
        0 => "stop1",
        1 => "stop2",
        2 => "clear1",
        3 => "clear2",
        4 => "start1",
        5 => "start2",
        6 => "trigger",
        _ => "last",
    }
}
