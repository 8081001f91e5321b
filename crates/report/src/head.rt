// What stands above the lines.
ghost use Rattle.std.specs.Prelude.{◌≤◌, ◌∷◌, length, get_or};
ghost use Rattle.buffer.specs.Room.{Wrote};
ghost use Rattle.report.specs.Page.{counts_text};
ghost use Rattle.report.specs.Words.{line_of, unaltered};

use crate::SORTS;
use crate::put::{put, put_number};

// That nothing is altered.
pub(crate) fn put_unaltered(out: &mut [u8]) -> usize
    requires { 150 ≤ length out.old }
    ensures { Wrote 0 (10 ∷ line_of unaltered) out.old out.new result }
{
    put(
        out,
        0,
        b"\nNo alteration: no slot differs between the two sheets.\n",
    )
}

// How many lines there are of each sort.
#[tactic(auto, using(crate::proofs::Heads::decimal_short))]
pub(crate) fn put_counts(out: &mut [u8], counts: &[usize; SORTS]) -> usize
    requires { 150 ≤ length out.old }
    ensures { Wrote 0 (counts_text (λ sort. get_or counts.now sort 0)) out.old out.new result }
{
    let a = put_number(out, 0, b"\nLines by sort: NAME ", counts[0]);
    let b = put_number(out, a, b", ALTR ", counts[1]);
    let c = put_number(out, b, b", WORD ", counts[2]);
    let d = put_number(out, c, b", NEW ", counts[3]);
    let e = put_number(out, d, b", GONE ", counts[4]);
    put(out, e, b"\n\n")
}
