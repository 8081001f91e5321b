// The records of a section's part, by their places.
ghost use Rattle.std.specs.Prelude.{◌≡◌, drop};
ghost use Rattle.records.specs.Records.{record_count, record_at, records_in, front};

use crate::fields::slot;
use crate::layout::record_size;

// How many whole records a section's part holds.
#[tactic(auto, unfolding(crate::specs::Records::record_count))]
pub fn record_count(part: &[u8], number: usize) -> usize
    ensures { result ≡ record_count number part.now }
{
    part.len() / record_size(number)
}

// The record of a section's part that starts at a cursor, if it is whole and has that slot; empty if not.
// The cursor behind it is `at` and its length.
#[tactic(auto, using(crate::proofs::Records::front_short, crate::proofs::Records::front_here, crate::proofs::Records::front_other))]
pub fn record_with(part: &[u8], number: usize, at: usize, with: u8) -> &[u8]
    ensures { result.now ≡ front with (records_in number (drop at part.now)) }
{
    let size = record_size(number);
    let next = peek::prefix(peek::suffix(part, at), size);
    if next.len() < size {
        return &part[..0];
    }
    if slot(next) == with { next } else { &part[..0] }
}
