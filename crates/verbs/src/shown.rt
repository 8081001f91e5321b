// `show`: a sheet or a stream as text. A refused one is shown up to its fault, which is marked by a line of its own.
ghost use Rattle.std.specs.Prelude.{◌≡◌};
ghost use Rattle.sheet.specs.Reading.{verdict};
ghost use Rattle.reader.specs.Judging.{stream_verdict};
ghost use Rattle.verbs.specs.Result.{Shows};

use crate::Came;
use buffer::{Outcome, Verdict};
use std::fmt::{self, Write};
use text::{Line, Padded, Plain};

// Longer than any refusal in words.
const WORDS: usize = 128;

// The line at the fault.
fn put_fault(line: &mut Line, number: u8, place: usize) -> fmt::Result {
    let mut words = [0u8; WORDS];
    let length = refusal::put_refusal(&mut words, 0, number, place);
    writeln!(
        line,
        "{}  *** {}",
        Padded(place),
        Plain(peek::prefix(&words, length))
    )
}

// What comes of a text of which `put` writes so many bytes: all of them, or those before the fault.
fn shown<F: FnOnce(&mut Line, usize)>(out: &mut [u8], verdict: Verdict, all: usize, put: F) -> Came
    requires { F.IsAlwaysCallable put }
    ensures { Shows verdict out.old result }
{
    let mut line = Line::new(out);
    match verdict {
        Verdict::Accepted => {
            put(&mut line, all);
            Came::Done(line.len().min(out.len()))
        }
        Verdict::Refused(number, place) => {
            put(&mut line, place);
            let _ = put_fault(&mut line, number, place);
            Came::Shown(line.len().min(out.len()), number, place)
        }
    }
}

pub(crate) fn sheet(sheet: &[u8], out: &mut [u8]) -> Came
    ensures { Shows (verdict sheet.now) out.old result }
{
    shown(out, sheet::check(sheet), sheet.len(), |line, end| {
        show::put_sheet(line, sheet, end)
    })
}

// What is found of a stream by reading it into room for any sheet.
fn found(stream: &[u8]) -> Verdict
    ensures { result ≡ stream_verdict stream.now }
{
    let mut room = [0u8; sheet::LONGEST];
    match reader::read(stream, &mut room) {
        Outcome::Done(_) => Verdict::Accepted,
        Outcome::Refused(number, place) => Verdict::Refused(number, place),
    }
}

pub(crate) fn commands(stream: &[u8], out: &mut [u8]) -> Came
    ensures { Shows (stream_verdict stream.now) out.old result }
{
    shown(out, found(stream), stream.len(), |line, end| {
        show::put_commands(line, stream, end)
    })
}
