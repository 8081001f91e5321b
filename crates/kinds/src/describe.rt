// What each kind says of its descriptions.
#![tactic(auto, using(crate::proofs::Rows::past), unfolding(crate::specs::Table::kind_of, crate::specs::Table::description_fault, crate::specs::Table::words_of, crate::specs::Table::description_read, crate::specs::Table::telling_of, term::specs::Description::fault))]

ghost use Rattle.std.specs.Prelude.{◌≡◌};
ghost use Rattle.buffer.specs.Room.{bytes, Delivered};
ghost use Rattle.lut.specs.Telling.{Says};
ghost use Rattle.kinds.specs.Table.{description_fault, words_of, description_read, shows_of, telling_of};
ghost use Rattle.kinds.specs.Told.{Differ};

use crate::{EDGES, RANGES, STATES, SUMS, TERMS};
use buffer::Outcome;
use lut::{Input, Telling};

// The first fault of a description in a section, 0 if it has none.
pub fn fault(section: usize, bytes: &[u8]) -> u8
    ensures { result ≡ description_fault section bytes.now }
{
    match section {
        TERMS => 0,
        RANGES => range::fault(bytes),
        EDGES => edge::fault(bytes),
        SUMS => sum::fault(bytes),
        STATES => state::fault(bytes),
        _ => 0,
    }
}

// The words of a description.
pub fn put_words(out: &mut [u32], section: usize, d: &[u8]) -> Outcome
    ensures { Delivered (bytes (words_of section d.now)) out.old result out.new }
{
    match section {
        TERMS => term::put_words(out, d),
        RANGES => range::put_words(out, d),
        EDGES => edge::put_words(out, d),
        SUMS => sum::put_words(out, d),
        STATES => state::put_words(out, d),
        _ => Outcome::Done(0),
    }
}

// The description that words are read as; nothing for words that no accepted description writes.
pub fn put_back(out: &mut [u8], section: usize, words: &[u32]) -> Outcome
    ensures { Delivered (bytes (description_read section words.now)) out.old result out.new }
{
    match section {
        TERMS => term::put_back(out, words),
        RANGES => range::put_back(out, words),
        EDGES => edge::put_back(out, words),
        SUMS => sum::put_back(out, words),
        STATES => state::put_back(out, words),
        _ => Outcome::Done(0),
    }
}

// What tells two descriptions of a section apart whose bytes differ; of states, which are asked with nothing, that is
// nothing, and of a section that no sheet has there is none.
pub fn telling_of(section: usize, old: &[u8], new: &[u8]) -> Telling
    ensures value { result ≡ telling_of section old.now new.now }
    ensures meaning { Differ section old.now new.now → Says (shows_of section old.now) (shows_of section new.now) result }
{
    match section {
        TERMS => term::telling_of(old, new),
        RANGES => range_telling::telling_of(old, new),
        EDGES => edge::telling_of(old, new),
        SUMS => sum_telling::telling_of(old, new),
        STATES => Telling::Apart(Input::Nothing),
        _ => Telling::Alike,
    }
}
