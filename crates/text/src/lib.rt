// Words for people: text that is built in lent room, and what each thing is called.
// Promises: every call is safe and ends; what does not fit is left out.
// Rests on: buffer (lent room), kinds (the sections by name), records (how many sections there are).
#![tactic(auto)]

mod names;
mod written;

pub use names::{
    ELSE_STATE, FLAGS, flag_name, operation_name, section_at, section_name, source_name, stage_name,
};
pub use written::{Hex2, Hex8, Line, Padded, Plain};

// The sections, for what is said of each: a match on them has no default, so that a new section has its words or is
// refused by the compiler.
#[derive(Clone, Copy)]
pub enum Section {
    Terms,
    Ranges,
    Edges,
    Sums,
    States,
}
