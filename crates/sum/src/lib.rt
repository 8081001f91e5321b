// Trigger sums: their operation words by code, their six chain words, the model over sixteen sources, and the way back.
// Promises: each call equals its definition in specs/; what the words do is what the source document says of the operations (proofs/Theorems).
// Rests on: lines (digits and computed tests), lut (tables and answers), peek, compare and buffer (codes, lent room).
#![tactic(auto)]

mod address;
mod back;
mod description;
mod model;
mod operation;
mod words;

pub use address::sum_address;
pub use back::read_sum;
pub use description::{fault, from_bytes, put_back, put_words};
pub use model::run_sum;
pub use words::words_of;
