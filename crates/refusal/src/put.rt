// Texts that fit, from an index on; each call answers the index behind.
ghost use Rattle.std.specs.Prelude.{◌+◌, ◌≤◌, ◌++◌, length};
ghost use Rattle.buffer.specs.Room.{Put, Wrote};
ghost use Rattle.refusal.specs.Line.{decimal};

// The most digits of a number.
const DIGITS: usize = 20;

pub(crate) fn put(out: &mut [u8], at: usize, text: &[u8]) -> usize
    requires { at + length text.now ≤ length out.old }
    ensures { Wrote at text.now out.old out.new result }
{
    buffer::put_at(out, at, text)
}

// Two texts, one behind the other.
pub(crate) fn put_two(out: &mut [u8], at: usize, first: &[u8], second: &[u8]) -> usize
    requires { at + (length first.now + length second.now) ≤ length out.old }
    ensures { Wrote at (first.now ++ second.now) out.old out.new result }
{
    let behind = put(out, at, first);
    put(out, behind, second)
}

// A text and a number in decimal.
pub(crate) fn put_number(out: &mut [u8], at: usize, before: &[u8], n: usize) -> usize
    requires { at + (length before.now + 20) ≤ length out.old }
    ensures { Wrote at (before.now ++ decimal n) out.old out.new result }
{
    let mut digits = [0u8; DIGITS];
    let count = io::decimal(n as u64, &mut digits);
    put_two(out, at, before, &digits[..count])
}

// A number in decimal from an index on. Answers the index behind, or `at` itself where it does not fit: then nothing is written.
pub fn put_decimal(out: &mut [u8], at: usize, n: usize) -> usize
    ensures { Put at (decimal n) out.old out.new result }
{
    let mut digits = [0u8; DIGITS];
    let count = io::decimal(n as u64, &mut digits);
    buffer::put_at(out, at, &digits[..count])
}
