// The whole line of a refusal.
ghost use Rattle.std.specs.Prelude.{◌≡◌, ◌+◌, ◌≤◌, leb, length};
ghost use Rattle.buffer.specs.Room.{Put, Wrote};
ghost use Rattle.refusal.specs.Line.{line_on, refusal_line};

use crate::put::put_two;
use crate::text::{ROOM, put_text};

// What stands between the file, the refusal in words and the detail, and the line feed.
const BETWEEN: usize = 5;

// Whether so many bytes and two texts of these lengths fit from an index on.
fn is_room(room: usize, at: usize, bytes: usize, first: usize, second: usize) -> bool
    ensures { result ≡ leb (at + (bytes + (first + second))) room }
{
    if room < at {
        return false;
    }
    if room - at < bytes {
        return false;
    }
    if room - at - bytes < first {
        return false;
    }
    second <= room - at - bytes - first
}

// A line that fits.
fn put_parts(out: &mut [u8], at: usize, file: &[u8], words: &[u8], detail: &[u8]) -> usize
    requires { at + length (line_on file.now words.now detail.now) ≤ length out.old }
    ensures { Wrote at (line_on file.now words.now detail.now) out.old out.new result }
{
    let a = put_two(out, at, file, b": ");
    let b = put_two(out, a, words, b"; ");
    put_two(out, b, detail, b"\n")
}

// From an index on. Answers the index behind, or `at` itself where the line does not fit: then nothing is written.
pub fn put_line(
    out: &mut [u8],
    at: usize,
    file: &[u8],
    number: u8,
    place: usize,
    detail: &[u8],
) -> usize
    ensures { Put at (refusal_line file.now number place detail.now) out.old out.new result }
{
    let mut text = [0u8; ROOM];
    let length = put_text(&mut text, number, place);
    if !is_room(out.len(), at, length + BETWEEN, file.len(), detail.len()) {
        return at;
    }
    put_parts(out, at, file, peek::prefix(&text, length), detail)
}
