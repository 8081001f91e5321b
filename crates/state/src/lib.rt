// Sequence states: which are accepted, their one chain word, and the way back.
// Promises: each call equals its definition in specs/; a word is read as the fields that write it, and equal words are equal fields (proofs/Theorems).
// Rests on: lut (a way back in numbers), peek, compare and buffer (bytes, flags within bounds, lent room).
#![tactic(auto)]

mod back;
mod description;
mod fields;
mod words;

pub use back::read_state;
pub use description::{fault, put_back, put_words};

// The greatest number, else state and flag byte that fit their bits.
pub const NUMBER_LAST: u32 = 0xf_ffff;

pub const STATE_LAST: u8 = 15;

pub const FLAG_LAST: u8 = 1;

// A description: how often the hit sum must match, the state that the else sum leads to, and a byte for each flag: stop,
// clear and start of either timer, trigger, last.
#[derive(Clone, Copy)]
pub struct State {
    pub number: u32,
    pub branch: u8,
    pub flags: [u8; 8],
}
