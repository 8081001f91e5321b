// Lent bytes and words compared: with bounds, and with each other.
// Promises: each call is total and equals its definition.
// Rests on: peek (parts of lent bytes), lines (laws of tests).
#![tactic(auto)]

mod bounds;
mod same;
mod words;

pub use bounds::all_within;
pub use same::same_bytes;
pub use words::same_words;
