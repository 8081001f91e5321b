// Writers into lent room. Each writes at the start of what it is lent, or from an index on, and changes nothing where it does not fit.
ghost use Rattle.peek.specs.Bytes.{u32_bytes};
ghost use Rattle.buffer.specs.Room.{bytes, Delivered, Put};

use crate::{OUTPUT_TOO_SHORT, Outcome};

// The bytes of `src`.
pub fn put_bytes(out: &mut [u8], src: &[u8]) -> Outcome
    ensures { Delivered (bytes src.now) out.old result out.new }
{
    if out.len() < src.len() {
        return Outcome::Refused(OUTPUT_TOO_SHORT, src.len());
    }
    let mut i: usize = 0;
    while i < src.len() {
        out[i] = src[i];
        i += 1;
    }
    Outcome::Done(src.len())
}

// A number as four bytes, least byte first.
pub fn put_u32(out: &mut [u8], n: u32) -> Outcome
    ensures { Delivered (bytes (u32_bytes n)) out.old result out.new }
{
    if out.len() < 4 {
        return Outcome::Refused(OUTPUT_TOO_SHORT, 4);
    }
    out[0] = (n % 256) as u8;
    out[1] = (n / 256 % 256) as u8;
    out[2] = (n / 65536 % 256) as u8;
    out[3] = (n / 16777216 % 256) as u8;
    Outcome::Done(4)
}

// A text from an index on. Answers the index behind it, or `at` itself where the text does not fit: then nothing is written.
pub fn put_at(out: &mut [u8], at: usize, text: &[u8]) -> usize
    ensures { Put at text.now out.old out.new result }
{
    if out.len() < at {
        return at;
    }
    if out.len() - at < text.len() {
        return at;
    }
    put_bytes(&mut out[at..], text);
    at + text.len()
}
