// What tells two sums apart: the least pattern of the sixteen sources on which one hits and the other misses, or that there is none.
// Promises: the answer is that pattern, and Alike exactly where all 65,536 patterns hit alike, for any operation bytes.
// Rests on: sum (a sum's operations and words, and what the model makes of them), lut (tables, what telling apart is).
#![tactic(auto)]

mod description;
mod finals;
mod half;
mod least;
mod numbers;
mod sets;
mod telling;

pub use description::telling_of;
pub use numbers::told_of;

// What tells two sums apart, in numbers: 1 and a pattern of the sources, 0 where none does, 10 where a byte is no
// operation code or the bytes are not eleven.
#[derive(Clone, Copy)]
pub struct Told {
    pub number: u8,
    pub sources: u16,
}
