// The bench: runs the programme of a sheet over samples, and writes those that capture takes.
// Promises: the sheet's refusal, 20, 24 or 12, or the words written and the run to hand on, as through the chain words; two pieces are one run (proofs/Theorems).
// Rests on: programme (the sheet's table, and that it answers as the chain words do), buffer (answers and lent room), lines, lut and edge (digits, tables, an edge's rule).
#![tactic(auto)]

mod call;
mod handed;
mod moves;
mod sources;
mod sums;
mod walk;

pub use call::{bench, fresh};
pub use handed::bench_words;
use programme::TABLE_LENGTH;

// The most samples of a call.
pub const MOST_SAMPLES: usize = 4096;

// The refusals: more samples than that, and a run that cannot be gone on with.
pub const TOO_MANY_SAMPLES: u8 = 20;

pub const BAD_RUN: u8 = 24;

// The table that programme makes of a sheet.
type Table = [u32; TABLE_LENGTH];

// A run between two calls. A fresh one is in state 0 with count 0, has no earlier word and has not ended.
#[derive(Clone, Copy)]
pub struct Run {
    pub state: u32,
    pub count: u32,
    // The word before the next sample, if there was one.
    pub earlier: Option<u32>,
    pub ended: bool,
}

// What the call answers.
#[derive(Clone, Copy)]
pub enum Benched {
    // How many words were written, and the run to hand on.
    Done(usize, Run),
    // The refusal's number and its place.
    Refused(u8, usize),
}

// A run that looks at the next sample: it has not ended, and there is a word before that sample.
#[derive(Clone, Copy)]
struct Underway {
    state: u32,
    count: u32,
    earlier: u32,
}

// Where a run stands after a sample.
#[derive(Clone, Copy)]
pub struct Moved {
    pub state: u32,
    pub count: u32,
    pub ended: bool,
}

// What the walk over the samples leaves: how many were taken, and the run after the last one that was looked at.
#[derive(Clone, Copy)]
pub struct Walked {
    pub taken: usize,
    pub run: Run,
}
