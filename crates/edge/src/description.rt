// An edge's description in a sheet, as bytes.
ghost use Rattle.std.specs.Prelude.{◌≡◌};
ghost use Rattle.buffer.specs.Room.{bytes, Delivered};
ghost use Rattle.lut.specs.Telling.{Says};
ghost use Rattle.edge.specs.Rule.{hit, Accepted};
ghost use Rattle.edge.specs.Description.{from_bytes};
ghost use Rattle.edge.specs.Description as description;

use crate::Edge;
use buffer::Outcome;
use lut::Telling;

const NO_FAULT: u8 = 0;

const ALL_ASKED: u8 = 9;

fn from_bytes(bytes: &[u8]) -> Edge
    ensures { result ≡ description.from_bytes bytes.now }
{
    Edge {
        rise: peek::field(bytes, 0),
        fall: peek::field(bytes, 1),
        neither: peek::field(bytes, 2),
    }
}

fn to_bytes(out: &mut [u8], e: Edge) -> Outcome
    ensures { Delivered (bytes (description.to_bytes e)) out.old result out.new }
{
    buffer::put_numbers(out, &[e.rise, e.fall, e.neither])
}

// The first fault of a description, 0 if it has none.
#[tactic(auto, unfolding(crate::specs::Description::fault))]
pub fn fault(bytes: &[u8]) -> u8
    ensures { result ≡ description.fault bytes.now }
{
    if super::rule::edge_accepted(from_bytes(bytes)) {
        NO_FAULT
    } else {
        ALL_ASKED
    }
}

// The eight words of a description.
#[tactic(auto, unfolding(crate::specs::Description::words))]
pub fn put_words(out: &mut [u32], d: &[u8]) -> Outcome
    ensures { Delivered (bytes (description.words d.now)) out.old result out.new }
{
    let e = from_bytes(d);
    buffer::put_words(out, &super::words::edge_words(e.rise, e.fall, e.neither))
}

// The description that words are read as; nothing for words that no accepted description writes.
#[tactic(auto, unfolding(crate::specs::Description::back))]
pub fn put_back(out: &mut [u8], words: &[u32]) -> Outcome
    ensures { Delivered (bytes (description.back words.now)) out.old result out.new }
{
    match super::back::read_edge(words) {
        Some(edge) => to_bytes(out, edge),
        None => Outcome::Done(0),
    }
}

// Two samples that tell two accepted descriptions apart, or that none do.
#[tactic(auto, unfolding(crate::specs::Description::telling))]
pub fn telling_of(old: &[u8], new: &[u8]) -> Telling
    ensures value { result ≡ description.telling old.now new.now }
    ensures meaning { Accepted (from_bytes old.now) → Accepted (from_bytes new.now) → Says (hit (from_bytes old.now)) (hit (from_bytes new.now)) result }
{
    super::telling::edge_telling(from_bytes(old), from_bytes(new))
}
