// Chain words, written into lent room.
ghost use Rattle.buffer.specs.Room.{bytes, Delivered};

use crate::{OUTPUT_TOO_SHORT, Outcome};

// The words of `src`.
pub fn put_words(out: &mut [u32], src: &[u32]) -> Outcome
    ensures { Delivered (bytes src.now) out.old result out.new }
{
    if out.len() < src.len() {
        return Outcome::Refused(OUTPUT_TOO_SHORT, src.len());
    }
    let mut i: usize = 0;
    while i < src.len() {
        out[i] = src[i];
        i += 1;
    }
    Outcome::Done(src.len())
}
