// The set-up sheet: sections of records, each after a one-byte count; judged, and taken apart into its sections.
// Promises: `check` gives the first fault's number and place; `section` a part of the lent bytes; any bytes are taken.
// Rests on: peek and compare (bytes), buffer (verdicts), records (the table of sections, the fields and faults of a record).
#![tactic(auto)]

ghost use Rattle.std.specs.Prelude.{◌≡◌};
ghost use Rattle.sheet.specs.Parsed.{longest_sheet};

mod judge;
mod met;
mod parts;

pub use judge::check;
pub use parts::{judge_parts, section, section_span};

// The most bytes that a sheet has: the counts, and of each record slot, label and description.
pub const LONGEST: usize = kinds::SECTIONS
    + kinds::ALL_RECORDS * (1 + records::LABEL_SIZE)
    + kinds::ALL_BYTES;

// The same as a call, whose contract holds the constant to its definition.
pub fn longest_sheet() -> usize
    ensures { result ≡ longest_sheet }
{
    LONGEST
}

// What is found of a sheet: its refusal, and where the part of each section lies. All 0 where there is nothing to say.
#[derive(Clone, Copy)]
pub struct Judged {
    // The number of the sheet's refusal, 0 if it is accepted, and its place.
    pub refusal: u8,
    pub place: usize,
    // The offset of the first byte of each section's part, behind its count, and the part's length; 0 in a refused sheet.
    pub starts: [usize; kinds::SECTIONS],
    pub sizes: [usize; kinds::SECTIONS],
}

// Where a section's part lies in the sheet: the offset of its first byte and its length, both 0 where the part is empty.
#[derive(Clone, Copy)]
pub struct Span {
    // The number of the sheet's refusal, 0 if it is accepted.
    pub refusal: u8,
    pub start: usize,
    pub size: usize,
}
