// The one call of crates/verbs for a main in C: program/main.c reads the files, calls it, and writes what it gives.
// Promises: what is returned and left equals what crates/verbs says of the verb with this number.
// Rests on: verbs (the call), page (a file, in the contract).
#![tactic(auto)]

ghost use Rattle.std.specs.Prelude.{◌≡◌};
ghost use Rattle.page.specs.Files.{file};
ghost use Rattle.verbs.specs.Run.{verb_of, Ran};

use verbs::Verb;

// The verb that has this number.
fn verb_of(number: u8) -> Verb
    ensures { result ≡ verb_of number }
{
    match number {
        0 => Verb::Nothing,
        1 => Verb::Check,
        2 => Verb::Section,
        3 => Verb::Compile,
        4 => Verb::Read,
        5 => Verb::Notice,
        6 => Verb::Page,
        7 => Verb::Show,
        8 => Verb::ShowCommands,
        9 => Verb::Bench,
        _ => Verb::Nothing,
    }
}

// Runs the verb with this number, and returns the status: 0 done, 1 refused, 2 trouble. Through the last two pointers go
// the bytes for standard output and for standard error that stand at the start of `out` and `err`.
#[unsafe(no_mangle)]
pub extern "C" fn voltamar_verb(
    verb: u8,
    first_name: &[u8],
    first: &[u8],
    second_name: &[u8],
    second: &[u8],
    first_digest: &[u8],
    second_digest: &[u8],
    out: &mut [u8],
    err: &mut [u8],
    written: &mut usize,
    said: &mut usize,
) -> u8
    ensures { Ran (verb_of verb) (file first_name.now first.now first_digest.now) (file second_name.now second.now second_digest.now) out.old err.old (record { status = result; out = written.new; err = said.new }) out.new err.new }
{
    let ended = verbs::run(
        verb_of(verb),
        first_name,
        first,
        first_digest,
        second_name,
        second,
        second_digest,
        out,
        err,
    );
    *written = ended.out;
    *said = ended.err;
    ended.status
}
