// The sources of a sum that hit in a pattern, by name.
ghost use Rattle.std.specs.Prelude.{◌+◌, ◌≤◌, cond, eqb, length};
ghost use Rattle.buffer.specs.Room.{Wrote};
ghost use Rattle.refusal.specs.Words.{ascii};
ghost use Rattle.report.specs.Words.{sources, names_in, sources_text};

use crate::put::put;

// How many bytes a name has, the space before it included.
const WIDTH: usize = 8;

// The lowest bit's first.
const NAMES: [[u8; WIDTH]; 16] = [
    *b" TERM 00",
    *b" TERM 01",
    *b" TERM 02",
    *b" TERM 03",
    *b" TERM 04",
    *b" TERM 05",
    *b" TERM 06",
    *b" TERM 07",
    *b" TERM 08",
    *b" TERM 09",
    *b" RANG 00",
    *b" RANG 01",
    *b" EDGE 00",
    *b" EDGE 01",
    *b" timer 1",
    *b" timer 2",
];

// All that hit in a pattern, or that none does.
fn put_names(out: &mut [u8], from: usize, pattern: u32) -> usize
    requires { from + 128 ≤ length out.old }
    ensures { Wrote from (cond (eqb pattern 0) (ascii " none") (names_in sources pattern)) out.old out.new result }
{
    if pattern == 0 {
        return put(out, from, b" none");
    }
    let mut at = from;
    let mut bits = pattern;
    for name in &NAMES {
        if bits % 2 == 1 {
            at = put(out, at, name);
        }
        bits /= 2;
    }
    at
}

// The line on them.
pub(crate) fn put_sources(out: &mut [u8], at: usize, pattern: u32) -> usize
    requires { at + 156 ≤ length out.old }
    ensures { Wrote at (sources_text pattern) out.old out.new result }
{
    let a = put(out, at, b"    sources that hit in it:");
    let b = put_names(out, a, pattern);
    put(out, b, b"\n")
}
