// Edge detectors: the plain rule, the eight chain words, the model that runs any eight words, the way back, and what tells two apart.
// Promises: each call equals its definition in specs/; over a description's words the model hits exactly when the plain rule does (proofs/Theorems).
// Rests on: lines (digits and computed tests), lut (tables, answers, what telling means), peek, compare and buffer (fields, words, lent room).
#![tactic(auto)]

mod back;
mod description;
mod model;
mod rule;
mod telling;
mod words;

pub use back::read_edge;
pub use description::{fault, put_back, put_words, telling_of};
pub use model::run_edge;
pub use rule::edge_hit;

// A description: the lines on which a rise, a fall, or neither of the two is asked for.
#[derive(Clone, Copy)]
pub struct Edge {
    pub rise: u32,
    pub fall: u32,
    pub neither: u32,
}

// What a line may do from the earlier to the later sample.
#[derive(Clone, Copy)]
enum Event {
    Rise,
    Fall,
    Neither,
}
