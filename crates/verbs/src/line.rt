// What is said on standard error, and the numbers of an answer.
ghost use Rattle.std.specs.Prelude.{◌≡◌};
ghost use Rattle.buffer.specs.Room.{Put};
ghost use Rattle.verbs.specs.Run.{no_number_line, status_of, count_of, Told, Says};

use crate::work::put_two;
use crate::{Came, DONE, File, REFUSED, TROUBLE, Verb};
use bench::MOST_SAMPLES;
use buffer::Outcome;
use std::fmt::{self, Write};
use text::Line;

// Longer than any words on what stands at a place.
const DETAIL: usize = 512;

impl Came {
    pub(crate) fn status(self) -> u8
        ensures { result ≡ status_of self }
    {
        match self {
            Came::Done(_) => DONE,
            Came::First(_, _) | Came::Second(_, _) | Came::Shown(_, _, _) => REFUSED,
            Came::NoNumber | Came::NoCall => TROUBLE,
        }
    }

    // How many bytes are for standard output.
    pub(crate) fn count(self) -> usize
        ensures { result ≡ count_of self }
    {
        match self {
            Came::Done(n) | Came::Shown(n, _, _) => n,
            Came::First(_, _) | Came::Second(_, _) | Came::NoNumber | Came::NoCall => 0,
        }
    }
}

// The samples are too many; the command that is named makes a file that is not too long.
fn put_too_many(line: &mut Line) -> fmt::Result {
    let bytes = 4 * MOST_SAMPLES;
    write!(
        line,
        "more than {bytes} bytes, where a run takes at most {MOST_SAMPLES} samples of four bytes; "
    )?;
    write!(line, "head -c {bytes} keeps the first {MOST_SAMPLES}")
}

// What stands at a place of the first file, which is a sheet but for two verbs.
fn put_first(line: &mut Line, verb: Verb, bytes: &[u8], number: u8, place: usize) {
    match verb {
        Verb::Read | Verb::ShowCommands => {
            stream_faults::put_stream_detail(line, bytes, number, place)
        }
        Verb::Check
        | Verb::Section
        | Verb::Compile
        | Verb::Notice
        | Verb::Page
        | Verb::Show
        | Verb::Bench => faults::put_sheet_detail(line, bytes, number, place),
        Verb::Nothing => {}
    }
}

// What stands at a place of the second file, which is a sheet, or the samples.
fn put_second(line: &mut Line, bytes: &[u8], number: u8, place: usize) {
    if number == bench::TOO_MANY_SAMPLES {
        let _ = put_too_many(line);
    } else {
        faults::put_sheet_detail(line, bytes, number, place)
    }
}

// The line of a refusal, with what `put` says of the place.
fn say_refusal<F: FnOnce(&mut Line)>(
    err: &mut [u8],
    name: &[u8],
    number: u8,
    place: usize,
    put: F,
) -> usize
    requires { F.IsAlwaysCallable put }
    ensures { Told name.now number place err.old result err.new }
{
    let mut detail = [0u8; DETAIL];
    let mut line = Line::new(&mut detail);
    put(&mut line);
    let length = line.len();
    refusal::put_line(err, 0, name, number, place, peek::prefix(&detail, length))
}

// The word that should be a section's number is none.
fn say_no_number(err: &mut [u8], word: &[u8]) -> usize
    ensures { Put 0 (no_number_line word.now) err.old err.new result }
{
    match put_two(err, word, b": not a section's number\n") {
        Outcome::Done(n) => n,
        Outcome::Refused(_, _) => 0,
    }
}

// The line for standard error.
pub(crate) fn say(verb: Verb, came: Came, first: File, second: File, err: &mut [u8]) -> usize
    ensures { Says came first.entry.name.now second.entry.name.now err.old result err.new }
{
    match came {
        Came::Done(_) | Came::NoCall => 0,
        Came::First(number, place) | Came::Shown(_, number, place) => {
            say_refusal(err, first.name, number, place, |line| {
                put_first(line, verb, first.bytes, number, place)
            })
        }
        Came::Second(number, place) => say_refusal(err, second.name, number, place, |line| {
            put_second(line, second.bytes, number, place)
        }),
        Came::NoNumber => say_no_number(err, second.name),
    }
}
