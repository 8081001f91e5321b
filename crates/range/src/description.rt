// A range's description in a sheet, as bytes.
ghost use Rattle.std.specs.Prelude.{◌≡◌};
ghost use Rattle.buffer.specs.Room.{bytes, Delivered};
ghost use Rattle.range.specs.Description as description;

use crate::Range;
use buffer::Outcome;

pub fn from_bytes(bytes: &[u8]) -> Range
    ensures { result ≡ description.from_bytes bytes.now }
{
    Range {
        lower: peek::field(bytes, 0),
        upper: peek::field(bytes, 1),
        mask: peek::field(bytes, 2),
    }
}

fn to_bytes(out: &mut [u8], r: Range) -> Outcome
    ensures { Delivered (bytes (description.to_bytes r)) out.old result out.new }
{
    buffer::put_numbers(out, &[r.lower, r.upper, r.mask])
}

// The first fault of a description, 0 if it has none.
pub fn fault(bytes: &[u8]) -> u8
    ensures { result ≡ description.fault bytes.now }
{
    let d = from_bytes(bytes);
    super::rule::range_fault(d)
}

// The 32 words of a description, the lower chain's first.
pub fn put_words(out: &mut [u32], d: &[u8]) -> Outcome
    ensures { Delivered (bytes (description.words d.now)) out.old result out.new }
{
    let chains = super::words::range_words(from_bytes(d));
    buffer::put_words(out, chains.as_flattened())
}

// The description that words are read as; nothing for words that no accepted description writes.
pub fn put_back(out: &mut [u8], words: &[u32]) -> Outcome
    ensures { Delivered (bytes (description.back words.now)) out.old result out.new }
{
    match super::back::read_range(words) {
        Some(range) => to_bytes(out, range),
        None => Outcome::Done(0),
    }
}
