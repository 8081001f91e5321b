// What a line of the notice says, in a sentence.
ghost use Rattle.std.specs.Prelude.{◌≡◌, false, ◌+◌, ◌≤◌, length, get_or};
ghost use Rattle.buffer.specs.Room.{Wrote};
ghost use Rattle.report.specs.Words.{line_of, stated, altered_bare, altered_on, altered_text, saying_text};
ghost use Rattle.findings.specs.declared.Finding.TheVariants.{Changed};

use crate::put::put;
use crate::sources::put_sources;
use kinds::SECTIONS;
use lut::{Input, Telling};
use notice::{Finding, Line};

// Whether ALTR without an input speaks of a state: an entry for each section, so that a new one has to be given its own.
const STATED: [bool; SECTIONS] = [false, false, false, false, true];

fn is_stated(section: usize) -> bool
    ensures { result ≡ get_or stated section false }
{
    STATED.get(section).copied().unwrap_or(false)
}

// ALTR where no input is shown.
fn put_bare(out: &mut [u8], at: usize, section: usize) -> usize
    requires { at + 65 ≤ length out.old }
    ensures { Wrote at (line_of (altered_bare section)) out.old out.new result }
{
    if is_stated(section) {
        return put(
            out,
            at,
            b"    Altered: the state's number, else state or flags are others.\n",
        );
    }
    put(out, at, b"    Altered.\n")
}

// ALTR where an input is shown.
fn put_shown(out: &mut [u8], at: usize) -> usize
    requires { at + 85 ≤ length out.old }
    ensures { Wrote at (line_of altered_on) out.old out.new result }
{
    put(
        out,
        at,
        b"    Altered: on the input shown, in hex, one of the two hits and the other does not.\n",
    )
}

// ALTR. Of a sum the input is a pattern of its sources: those that hit in it are named.
fn put_altered(out: &mut [u8], at: usize, section: usize, input: Input) -> usize
    requires { at + 241 ≤ length out.old }
    ensures { Wrote at (altered_text section input) out.old out.new result }
{
    match input {
        Input::Nothing => put_bare(out, at, section),
        Input::Sample(_) | Input::Samples(_, _) => put_shown(out, at),
        Input::Sources(pattern) => {
            let next = put_shown(out, at);
            put_sources(out, next, pattern)
        }
    }
}

// Of two descriptions that differ.
fn put_change(out: &mut [u8], at: usize, section: usize, telling: Telling) -> usize
    requires { at + 241 ≤ length out.old }
    ensures { Wrote at (saying_text section (Changed telling)) out.old out.new result }
{
    match telling {
        Telling::Alike => put(
            out,
            at,
            b"    Written otherwise, but no input tells the two apart: they hit alike.\n",
        ),
        Telling::Apart(input) => put_altered(out, at, section, input),
    }
}

pub(crate) fn put_saying(out: &mut [u8], at: usize, line: Line) -> usize
    requires { at + 241 ≤ length out.old }
    ensures { Wrote at (saying_text line.section line.finding) out.old out.new result }
{
    match line.finding {
        Finding::New => put(out, at, b"    The slot is in the new sheet only.\n"),
        Finding::Gone => put(out, at, b"    The slot is in the old sheet only.\n"),
        Finding::Name => put(out, at, b"    The label is another one.\n"),
        Finding::Changed(telling) => put_change(out, at, line.section, telling),
    }
}
