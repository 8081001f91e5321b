// A pattern's description in a sheet, as bytes.
ghost use Rattle.std.specs.Prelude.{◌≡◌};
ghost use Rattle.buffer.specs.Room.{bytes, Delivered};
ghost use Rattle.lut.specs.Telling.{Says, Least};
ghost use Rattle.term.specs.Rule.{hit};
ghost use Rattle.term.specs.Description.{from_bytes};
ghost use Rattle.term.specs.Description as description;

use crate::Pattern;
use buffer::Outcome;
use lut::Telling;

fn from_bytes(bytes: &[u8]) -> Pattern
    ensures { result ≡ description.from_bytes bytes.now }
{
    Pattern {
        target: peek::field(bytes, 0),
        mask: peek::field(bytes, 1),
    }
}

fn to_bytes(out: &mut [u8], p: Pattern) -> Outcome
    ensures { Delivered (bytes (description.to_bytes p)) out.old result out.new }
{
    buffer::put_numbers(out, &[p.target, p.mask])
}

// The four words of a description.
pub fn put_words(out: &mut [u32], d: &[u8]) -> Outcome
    ensures { Delivered (bytes (description.words d.now)) out.old result out.new }
{
    let words = super::words::term_words(from_bytes(d));
    buffer::put_words(out, &words)
}

// The description that words are read as; nothing for words that no accepted description writes.
pub fn put_back(out: &mut [u8], words: &[u32]) -> Outcome
    ensures { Delivered (bytes (description.back words.now)) out.old result out.new }
{
    match super::back::read_term(words) {
        Some(pattern) => to_bytes(out, pattern),
        None => Outcome::Done(0),
    }
}

// The least sample that tells two descriptions apart, or that none does.
pub fn telling_of(old: &[u8], new: &[u8]) -> Telling
    ensures value { result ≡ description.telling old.now new.now }
    ensures meaning { Says (hit (from_bytes old.now)) (hit (from_bytes new.now)) result }
    ensures least { Least (hit (from_bytes old.now)) (hit (from_bytes new.now)) result }
{
    super::telling::term_telling(from_bytes(old), from_bytes(new))
}
