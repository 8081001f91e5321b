// Head, entries and ending, one behind the other.
ghost use Rattle.std.specs.Prelude.{◌++◌, ◌+◌, ◌≤◌, length, get_or};
ghost use Rattle.buffer.specs.Room.{Wrote};
ghost use Rattle.report.specs.Page.{head_on};
ghost use Rattle.report.specs.Words.{ending_text};

use crate::SORTS;
use crate::head::{put_counts, put_unaltered};
use crate::put::put;

// What the words mean, and the line to sign.
fn put_ending(out: &mut [u8], at: usize) -> usize
    requires { at + 754 ≤ length out.old }
    ensures { Wrote at (ending_text) out.old out.new result }
{
    put(
        out,
        at,
        b"\nWhat the words mean (TERM terms, RANG ranges, EDGE edges, SUMS sums, STAT states):\n  NAME  the label differs; what is caught is not altered by that\n  ALTR  what is caught differs; the input that follows tells the two apart\n        (one sample in hex; for an edge the earlier and the later sample;\n        for a sum its sixteen sources, of which every pattern counts);\n        for a state, where no input follows: its number, else state or flags differ\n  WORD  the description differs, but no input tells the two apart\n  NEW   a slot that only the new sheet has\n  GONE  a slot that only the old sheet has\nA slot without a line is the same in both sheets, its label too.\n\nName: ______________________   Date: ____________   Signed: ______________________\n",
    )
}

fn put_head(out: &mut [u8], entries: usize, counts: &[usize; SORTS]) -> usize
    requires { 150 ≤ length out.old }
    ensures { Wrote 0 (head_on entries (λ sort. get_or counts.now sort 0)) out.old out.new result }
{
    if entries == 0 {
        return put_unaltered(out);
    }
    put_counts(out, counts)
}

// Of the entries' text, which has no bytes where there is no line.
#[tactic(auto, using(crate::proofs::Heads::head_most))]
pub(crate) fn put_body(out: &mut [u8], entries: &[u8], counts: &[usize; SORTS]) -> usize
    requires { 150 + length entries.now + 754 ≤ length out.old }
    ensures { Wrote 0 (head_on (length entries.now) (λ sort. get_or counts.now sort 0) ++ entries.now ++ ending_text) out.old out.new result }
{
    let a = put_head(out, entries.len(), counts);
    let b = put(out, a, entries);
    put_ending(out, b)
}
