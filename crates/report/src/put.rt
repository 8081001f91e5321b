// Texts that fit, from an index on; each call answers the index behind. As in notice, what asks something of its caller is
// private.
ghost use Rattle.std.specs.Prelude.{◌+◌, ◌≤◌, ◌++◌, length};
ghost use Rattle.buffer.specs.Room.{Wrote};
ghost use Rattle.refusal.specs.Line.{decimal};

pub(crate) fn put(out: &mut [u8], at: usize, text: &[u8]) -> usize
    requires { at + length text.now ≤ length out.old }
    ensures { Wrote at text.now out.old out.new result }
{
    buffer::put_at(out, at, text)
}

// A text and a number in decimal, which has at most twenty digits.
pub(crate) fn put_number(out: &mut [u8], at: usize, before: &[u8], n: usize) -> usize
    requires { at + (length before.now + 20) ≤ length out.old }
    ensures { Wrote at (before.now ++ decimal n) out.old out.new result }
{
    let behind = put(out, at, before);
    refusal::put_decimal(out, behind, n)
}
