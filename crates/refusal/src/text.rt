// A refusal in words: its number, its place, what the number means.
ghost use Rattle.std.specs.Prelude.{◌≤◌, length};
ghost use Rattle.buffer.specs.Room.{Put, Wrote};
ghost use Rattle.refusal.specs.Line.{refusal_text};

use crate::meaning::put_meaning;
use crate::put::{put, put_number};

// Longer than any refusal in words.
pub(crate) const ROOM: usize = 128;

// At the start of a room that suffices.
pub(crate) fn put_text(out: &mut [u8], number: u8, place: usize) -> usize
    requires { 128 ≤ length out.old }
    ensures { Wrote 0 (refusal_text number place) out.old out.new result }
{
    let a = put_number(out, 0, b"refused ", number as usize);
    let b = put_number(out, a, b" at ", place);
    let c = put(out, b, b": ");
    put_meaning(out, c, number)
}

// From an index on. Answers the index behind, or `at` itself where the text does not fit: then nothing is written.
pub fn put_refusal(out: &mut [u8], at: usize, number: u8, place: usize) -> usize
    ensures { Put at (refusal_text number place) out.old out.new result }
{
    let mut text = [0u8; ROOM];
    let length = put_text(&mut text, number, place);
    buffer::put_at(out, at, peek::prefix(&text, length))
}
