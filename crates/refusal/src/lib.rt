// The line that tells people of a refusal, built in lent room.
// Promises: each call equals its definition in specs/: file, number, place, meaning and detail stand where the rule has them.
// Rests on: peek (parts), buffer (lent room), io (decimal digits).
#![tactic(auto)]

mod line;
mod meaning;
mod put;
mod text;

pub use line::put_line;
pub use put::put_decimal;
pub use text::put_refusal;
