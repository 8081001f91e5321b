// Trigger terms: a pattern of a target and a mask over 32 lines, its four chain words, the model that runs words, and the way back.
// Promises: each call equals its definition in specs/ for any input, and no input traps; reading back and telling apart also say what they mean.
// Rests on: lines (digits and lines), lut (tables, answers, what telling means), peek, compare and buffer (fields, words, lent room).
#![tactic(auto)]

mod back;
mod description;
mod model;
mod rule;
mod telling;
mod words;

pub use back::read_term;
pub use description::{put_back, put_words, telling_of};
pub use model::run_term;
pub use rule::term_hit;

// A description, which asks for the target on all masked lines.
#[derive(Clone, Copy)]
pub struct Pattern {
    pub target: u32,
    pub mask: u32,
}
