// The entries of the table that a bench makes of a sheet: one shape for each kind, and one for a slot without record.
// Promises: each call equals its column of the table of sections (kinds/specs), for any section number and any bytes.
// Rests on: kinds (the sections' numbers), sum and state (words), lines (scatter), peek and buffer (lent bytes and room).
#![tactic(auto, using(kinds::proofs::Rows::past), unfolding(kinds::specs::Table::kind_of, kinds::specs::Table::entry_of, kinds::specs::Table::missing_of))]

ghost use Rattle.buffer.specs.Room.{bytes, Delivered};
ghost use Rattle.kinds.specs.Table.{entry_of, missing_of};

use buffer::Outcome;
use kinds::{EDGES, RANGES, STATES, SUMS, TERMS};

// The entry of a description: a pattern's cut target and mask, a range's bounds on its masked lines, an edge's numbers; the words of the others.
pub fn put_entry(out: &mut [u32], section: usize, d: &[u8]) -> Outcome
    ensures { Delivered (bytes (entry_of section d.now)) out.old result out.new }
{
    match section {
        TERMS => {
            let mask = peek::field(d, 1);
            buffer::put_words(out, &[peek::field(d, 0) & mask, mask])
        }
        RANGES => {
            let mask = peek::field(d, 2);
            let low = lines::scatter(peek::field(d, 0), mask);
            let high = lines::scatter(peek::field(d, 1), mask);
            buffer::put_words(out, &[low, high, mask])
        }
        EDGES => buffer::put_words(
            out,
            &[peek::field(d, 0), peek::field(d, 1), peek::field(d, 2)],
        ),
        SUMS => sum::put_words(out, d),
        STATES => state::put_words(out, d),
        _ => Outcome::Done(0),
    }
}

// The entry of a slot without record, which never hits and never matches.
pub fn put_missing(out: &mut [u32], section: usize) -> Outcome
    ensures { Delivered (bytes (missing_of section)) out.old result out.new }
{
    match section {
        TERMS => buffer::put_words(out, &[1, 0]),
        RANGES => buffer::put_words(out, &[1, 0, 0]),
        EDGES => buffer::put_words(out, &[0, 0, 0]),
        SUMS => buffer::put_words(out, &[0, 0, 0, 0, 0, 0]),
        STATES => buffer::put_words(out, &[1]),
        _ => Outcome::Done(0),
    }
}
