// What a notice says of two set-up sheets, old and new: its lines one by one, without their text.
// Promises: over any bytes, the first line at or behind a cursor and the cursor behind it; from the start on, all lines; a section's part and its record with a slot.
// Rests on: kinds (what is found of two descriptions), sheet (sections), records, compare (parts that differ), peek (parts of lent bytes).
#![tactic(auto)]

mod meet;
mod record;
mod walk;

use lut::Telling;
pub use record::{part_by, record_of};
pub use walk::{at_section, next_line, start, step_in};

// What a line says of a slot.
#[derive(Clone, Copy)]
pub enum Finding {
    New,
    Gone,
    Name,
    // The descriptions differ: what tells them apart, if anything does.
    Changed(Telling),
}

// A line of the notice. A section is known by its number.
#[derive(Clone, Copy)]
pub struct Line {
    pub section: usize,
    pub slot: u8,
    pub finding: Finding,
}

// Where a walk over the lines stands.
#[derive(Clone, Copy)]
pub struct Cursor {
    // The slot that is looked at next, and whether its line NAME has been given.
    pub section: usize,
    pub slot: usize,
    pub named: bool,
    // How many bytes of the section's records lie behind, in the old sheet and in the new one.
    pub old: usize,
    pub new: usize,
}
