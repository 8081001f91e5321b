// A sum's description in a sheet, as bytes.
ghost use Rattle.std.specs.Prelude.{◌≡◌};
ghost use Rattle.buffer.specs.Room.{bytes, Delivered};
ghost use Rattle.sum.specs.Description as description;

use buffer::Outcome;

const NO_FAULT: u8 = 0;

const BAD_OPERATION: u8 = 10;

// The operations of a description; 0 for bytes that it lacks.
pub fn from_bytes(bytes: &[u8]) -> [u8; 11]
    ensures { result ≡ description.from_bytes bytes.now }
{
    if let Some(ops) = bytes.first_chunk() {
        return *ops;
    }
    let mut ops = [0u8; 11];
    ops[..bytes.len()].copy_from_slice(bytes);
    ops
}

// The first fault of a description, 0 if it has none.
#[tactic(auto, unfolding(crate::specs::Description::fault))]
pub fn fault(bytes: &[u8]) -> u8
    ensures { result ≡ description.fault bytes.now }
{
    if super::operation::codes_accepted(bytes) {
        NO_FAULT
    } else {
        BAD_OPERATION
    }
}

// The six words of a description.
#[tactic(auto, unfolding(crate::specs::Description::words))]
pub fn put_words(out: &mut [u32], d: &[u8]) -> Outcome
    ensures { Delivered (bytes (description.words d.now)) out.old result out.new }
{
    buffer::put_words(out, &super::words::words_of(from_bytes(d)))
}

// The description that words are read as; nothing for words that no accepted description writes.
#[tactic(auto, unfolding(crate::specs::Description::back))]
pub fn put_back(out: &mut [u8], words: &[u32]) -> Outcome
    ensures { Delivered (bytes (description.back words.now)) out.old result out.new }
{
    match super::back::read_sum(words) {
        Some(ops) => buffer::put_bytes(out, &ops),
        None => Outcome::Done(0),
    }
}
