// A state's description in a sheet, as bytes.
ghost use Rattle.std.specs.Prelude.{◌≡◌};
ghost use Rattle.buffer.specs.Room.{bytes, Delivered};
ghost use Rattle.state.specs.Description as description;

use crate::State;
use buffer::Outcome;
use peek::{byte_at, u32_at};

const NO_FAULT: u8 = 0;

const FIELD_TOO_BIG: u8 = 18;

// A whole description is asked once whether it is whole.
#[inline]
fn from_bytes(bytes: &[u8]) -> State
    ensures { result ≡ description.from_bytes bytes.now }
{
    if bytes.len() < 13 {
        return State {
            number: u32_at(bytes, 0),
            branch: byte_at(bytes, 4),
            flags: std::array::from_fn(|i| byte_at(bytes, 5 + i)),
        };
    }
    State {
        number: u32_at(bytes, 0),
        branch: bytes[4],
        flags: std::array::from_fn(|i| bytes[5 + i]),
    }
}

fn to_bytes(out: &mut [u8], s: State) -> Outcome
    ensures { Delivered (bytes (description.to_bytes s)) out.old result out.new }
{
    let mut all = [0u8; 13];
    all[..4].copy_from_slice(&s.number.to_le_bytes());
    all[4] = s.branch;
    all[5..].copy_from_slice(&s.flags);
    buffer::put_bytes(out, &all)
}

// The first fault of a description, 0 if it has none.
#[tactic(auto, unfolding(crate::specs::Description::fault))]
pub fn fault(bytes: &[u8]) -> u8
    ensures { result ≡ description.fault bytes.now }
{
    if super::fields::fields_fit(from_bytes(bytes)) {
        NO_FAULT
    } else {
        FIELD_TOO_BIG
    }
}

// The one word of a description.
#[tactic(auto, unfolding(crate::specs::Description::words))]
pub fn put_words(out: &mut [u32], d: &[u8]) -> Outcome
    ensures { Delivered (bytes (description.words d.now)) out.old result out.new }
{
    buffer::put_words(out, &[super::words::word_of(from_bytes(d))])
}

// The description that words are read as; nothing for words that no accepted description writes.
#[tactic(auto, unfolding(crate::specs::Description::back))]
pub fn put_back(out: &mut [u8], words: &[u32]) -> Outcome
    ensures { Delivered (bytes (description.back words.now)) out.old result out.new }
{
    match super::back::read_state(words) {
        Some(state) => to_bytes(out, state),
        None => Outcome::Done(0),
    }
}
