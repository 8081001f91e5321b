// The lines of the notice, each with what it says and the slot's labels.
ghost use Rattle.std.specs.Prelude.{◌≡◌, ℕ, ◌+◌, ◌≤◌, ◌<◌, length, get_or};
ghost use Rattle.buffer.specs.Room.{Wrote};
ghost use Rattle.findings.specs.Findings.{notice_lines};
ghost use Rattle.report.specs.Page.{label_text, labels_text, entry_text, entries_text, sort_of, how_many, label_room, labels_room, entry_room, longest_body};

use crate::SORTS;
use crate::put::put;
use crate::saying::put_saying;
use lut::Telling;
use notice::{Finding, Line, Sheets};

// The label of a record in quotes; an empty one stands for a sheet that has no such slot.
fn put_label(out: &mut [u8], at: usize, found: &[u8]) -> usize
    requires { at + label_room ≤ length out.old }
    ensures { Wrote at (label_text found.now) out.old out.new result }
{
    if found.is_empty() {
        return put(out, at, b"(no such slot)");
    }
    let a = put(out, at, b"'");
    let b = put(out, a, records::label(found));
    put(out, b, b"'")
}

#[tactic(auto, using(crate::proofs::Lengths::label_most))]
fn put_labels(out: &mut [u8], at: usize, old: &[u8], new: &[u8]) -> usize
    requires { at + labels_room ≤ length out.old }
    ensures { Wrote at (labels_text old.now new.now) out.old out.new result }
{
    let a = put(out, at, b"    old label ");
    let b = put_label(out, a, old);
    let c = put(out, b, b", new label ");
    let d = put_label(out, c, new);
    put(out, d, b"\n")
}

// A line and the two records of its slot.
fn put_entry(out: &mut [u8], at: usize, line: Line, old: &[u8], new: &[u8]) -> usize
    requires { at + entry_room ≤ length out.old }
    ensures { Wrote at (entry_text line old.now new.now) out.old out.new result }
{
    let a = notice::put_line(out, at, line);
    let b = put_saying(out, a, line);
    put_labels(out, b, old, new)
}

fn sort_of(finding: Finding) -> usize
    ensures { (result < 5) × (result ≡ sort_of finding) }
{
    match finding {
        Finding::Name => 0,
        Finding::Changed(Telling::Apart(_)) => 1,
        Finding::Changed(Telling::Alike) => 2,
        Finding::New => 3,
        Finding::Gone => 4,
    }
}

// Each line of the notice, at the start of a room that suffices. Answers the index behind them, and how many there are
// of each sort.
pub(crate) fn put_entries(out: &mut [u8], sheets: &Sheets) -> (usize, [usize; SORTS])
    requires { longest_body ≤ length out.old }
    ensures wrote { Wrote 0 (entries_text sheets.now.old.now sheets.now.new.now (notice_lines sheets.now.old.now sheets.now.new.now)) out.old out.new result.0 }
    ensures counted { (s : ℕ) → s < 5 → get_or result.1 s 0 ≡ how_many s (notice_lines sheets.now.old.now sheets.now.new.now) }
{
    let Sheets {
        old,
        new,
        olds,
        news,
    } = *sheets;
    let mut at: usize = 0;
    let mut counts = [0usize; SORTS];
    let mut here = notice::start();
    while let Some((line, next)) = notice::next_line(old, new, olds, news, here) {
        let a = notice::record_of(old, olds, line.section, line.slot);
        let b = notice::record_of(new, news, line.section, line.slot);
        at = put_entry(out, at, line, a, b);
        counts[sort_of(line.finding)] += 1;
        here = next;
    }
    (at, counts)
}
