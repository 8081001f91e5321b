// What tells two ranges apart, and which lines of a range cannot matter.
// Promises: each call equals its definition in specs/, for any numbers; what reducing and telling mean stands in their contracts.
// Rests on: range (the plain rule, chain words), lines (lines dropped and changed), lut (what telling apart is).
#![tactic(auto)]

mod description;
mod reduced;
mod telling;

pub use description::telling_of;
