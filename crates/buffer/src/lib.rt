// Lent room, and what every call of the house answers.
// Promises: writers are total; one that refuses changes nothing, one that writes leaves what lies beyond.
// Rests on: peek (bytes as they are read).
#![tactic(auto)]

mod fields;
mod room;
mod words;

pub use fields::put_numbers;
pub use room::{put_at, put_bytes, put_u32};
pub use words::put_words;

// The refusal that every writer shares; its place is the bytes needed.
pub const OUTPUT_TOO_SHORT: u8 = 12;

// What a check finds.
#[derive(Clone, Copy)]
pub enum Verdict {
    Accepted,
    // The refusal's number and its place.
    Refused(u8, usize),
}

// What a call that writes answers.
#[derive(Clone, Copy)]
pub enum Outcome {
    // How many bytes were written.
    Done(usize),
    // The refusal's number and its place.
    Refused(u8, usize),
}
