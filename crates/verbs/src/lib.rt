// The program between reading and writing, as one call: from a verb and the names and bytes of its files to the bytes for standard output, the line for standard error and the status.
// Promises: output and status are those of the library's definitions; a refusal's line has the number, the place and the file that were answered; a refusal changes nothing in the room for standard output.
// Rests on: sheet, compiler, reader, notice, page, bench (the work), decimal (a section's number), show (text), refusal, faults, stream_faults (the line of a refusal).
#![tactic(auto)]

ghost use Rattle.page.specs.Files.{file};
ghost use Rattle.verbs.specs.Run.{Ran};

mod line;
mod samples;
mod shown;
mod work;

// What the program is asked to do.
#[derive(Clone, Copy)]
pub enum Verb {
    Check,
    // The second file stands for the section's number, in decimal.
    Section,
    Compile,
    Read,
    Notice,
    // The notice as a page for signing.
    Page,
    Show,
    ShowCommands,
    // The second file holds the samples.
    Bench,
    // No verb has the number that was given.
    Nothing,
}

// What came of it.
#[derive(Clone, Copy)]
pub enum Came {
    // So many bytes for standard output.
    Done(usize),
    // A refusal of the first file, by number and place.
    First(u8, usize),
    // A refusal of the second file.
    Second(u8, usize),
    // So many bytes for standard output, and a refusal of the first file.
    Shown(usize, u8, usize),
    // What should be a section's number is none.
    NoNumber,
    // No verb has the number that was given, or a name or digest is longer than a page has room for.
    NoCall,
}

// How the call ended: the exit status, and how many bytes stand at the start of each room.
#[derive(Clone, Copy)]
pub struct Ended {
    pub status: u8,
    pub out: usize,
    pub err: usize,
}

// The status of a run that is done, of one that was refused something, and of one in trouble.
pub const DONE: u8 = 0;

pub const REFUSED: u8 = 1;

pub const TROUBLE: u8 = 2;

// A file: its name, its bytes, and their digest in hex.
#[derive(Clone, Copy)]
struct File<'a> {
    name: &'a [u8],
    bytes: &'a [u8],
    digest: &'a [u8],
}

// Runs a verb on the names and bytes of its files. A verb that has one file ignores the second.
pub fn run(
    verb: Verb,
    first_name: &[u8],
    first: &[u8],
    first_digest: &[u8],
    second_name: &[u8],
    second: &[u8],
    second_digest: &[u8],
    out: &mut [u8],
    err: &mut [u8],
) -> Ended
    ensures { Ran verb (file first_name.now first.now first_digest.now) (file second_name.now second.now second_digest.now) out.old err.old result out.new err.new }
{
    let first = File {
        name: first_name,
        bytes: first,
        digest: first_digest,
    };
    let second = File {
        name: second_name,
        bytes: second,
        digest: second_digest,
    };
    let came = work::work(verb, first, second, out);
    Ended {
        status: came.status(),
        out: came.count(),
        err: line::say(verb, came, first, second, err),
    }
}
