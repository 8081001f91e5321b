// The records of a set-up sheet: a record's fields, sizes, and the records of a section's part.
// Promises: each call equals its definition in specs/, for any bytes and any section number; what a record lacks counts as nothing, or as 0.
// Rests on: peek (bytes), buffer (lent room), kinds (the table of sections).
#![tactic(auto)]

mod fields;
mod layout;
mod part;

pub use fields::{description, label, slot, slot_digits, sum_record};
pub use layout::{most, record_size, section_size};
pub use part::{record_count, record_with};

// How many bytes a label has.
pub const LABEL_SIZE: usize = 8;

// How many operation bytes a sum has.
pub const OPERATIONS: usize = 11;

// A sum's record: its slot, its label, and its operations in the sheet's order [S6, L5]. Why it is the record and not
// the description alone: docs/DECISIONS.md [K7].
#[derive(Clone, Copy)]
pub struct Sum {
    pub slot: u8,
    pub label: [u8; LABEL_SIZE],
    pub ops: [u8; OPERATIONS],
}
