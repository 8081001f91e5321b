// Each verb, by the library's call. What it has to say goes to the start of `out`, and a refusal leaves `out` as it was.
ghost use Rattle.std.specs.Prelude.{◌≡◌, cond, ◌++◌};
ghost use Rattle.buffer.specs.Room.{bytes, Delivered};
ghost use Rattle.buffer.specs.declared.Verdict.TheVariants.{Accepted};
ghost use Rattle.sheet.specs.Reading.{verdict};
ghost use Rattle.sheet.specs.Parts.{section_of};
ghost use Rattle.decimal.specs.Decimal.{is_decimal, section_asked};
ghost use Rattle.page.specs.Files.{file};
ghost use Rattle.verbs.specs.Result.{unless, no_number, Gives, of_outcome, of_noticed, of_paged};
ghost use Rattle.verbs.specs.Run.{accepted_line, Does};

use crate::{Came, File, Verb, samples, shown};
use buffer::{OUTPUT_TOO_SHORT, Outcome, Verdict};
use notice::Noticed;
use page::Paged;

// What a writer answered on the first file.
impl From<Outcome> for Came {
    ghost from_gives = { λ outcome came. came ≡ of_outcome outcome };

    fn from(outcome: Outcome) -> Came {
        match outcome {
            Outcome::Done(length) => Came::Done(length),
            Outcome::Refused(number, place) => Came::First(number, place),
        }
    }
}

impl From<Noticed> for Came {
    ghost from_gives = { λ noticed came. came ≡ of_noticed noticed };

    fn from(noticed: Noticed) -> Came {
        match noticed {
            Noticed::Done(length) => Came::Done(length),
            Noticed::Old(number, place) => Came::First(number, place),
            Noticed::New(number, place) => Came::Second(number, place),
            Noticed::Short(needed) => Came::First(OUTPUT_TOO_SHORT, needed),
        }
    }
}

impl From<Paged> for Came {
    ghost from_gives = { λ paged came. came ≡ of_paged paged };

    fn from(paged: Paged) -> Came {
        match paged {
            Paged::Done(length) => Came::Done(length),
            Paged::Old(number, place) => Came::First(number, place),
            Paged::New(number, place) => Came::Second(number, place),
            Paged::Short(needed) => Came::First(OUTPUT_TOO_SHORT, needed),
            Paged::TooLong => Came::NoCall,
        }
    }
}

// Two texts, one behind the other.
pub(crate) fn put_two(out: &mut [u8], first: &[u8], second: &[u8]) -> Outcome
    ensures { Delivered (bytes (first.now ++ second.now)) out.old result out.new }
{
    let needed = first.len() + second.len();
    if out.len() < needed {
        return Outcome::Refused(OUTPUT_TOO_SHORT, needed);
    }
    let behind = buffer::put_at(out, 0, first);
    buffer::put_at(out, behind, second);
    Outcome::Done(needed)
}

fn check(name: &[u8], sheet: &[u8], out: &mut [u8]) -> Came
    ensures { Gives (unless (verdict sheet.now) Accepted (accepted_line name.now)) out.old result out.new }
{
    match sheet::check(sheet) {
        Verdict::Refused(number, place) => Came::First(number, place),
        Verdict::Accepted => Came::from(put_two(out, name, b": accepted\n")),
    }
}

fn section(sheet: &[u8], number: &[u8], out: &mut [u8]) -> Came
    ensures { Gives (cond (is_decimal number.now) (unless (verdict sheet.now) Accepted (section_of sheet.now (section_asked number.now))) no_number) out.old result out.new }
{
    if !decimal::is_decimal(number) {
        return Came::NoNumber;
    }
    match sheet::check(sheet) {
        Verdict::Refused(fault, place) => Came::First(fault, place),
        Verdict::Accepted => {
            let part = sheet::section(sheet, decimal::section_asked(number));
            Came::from(buffer::put_bytes(out, part))
        }
    }
}

// What a verb comes to.
pub(crate) fn work(verb: Verb, first: File, second: File, out: &mut [u8]) -> Came
    ensures { Does verb (file first.entry.name.now first.entry.bytes.now first.entry.digest.now) (file second.entry.name.now second.entry.bytes.now second.entry.digest.now) out.old result out.new }
{
    match verb {
        Verb::Check => check(first.name, first.bytes, out),
        Verb::Section => section(first.bytes, second.bytes, out),
        Verb::Compile => Came::from(compiler::compile(first.bytes, out)),
        Verb::Read => Came::from(reader::read(first.bytes, out)),
        Verb::Notice => Came::from(notice::notice(first.bytes, second.bytes, out)),
        Verb::Page => Came::from(page::page(
            first.name,
            first.bytes,
            first.digest,
            second.name,
            second.bytes,
            second.digest,
            out,
        )),
        Verb::Show => shown::sheet(first.bytes, out),
        Verb::ShowCommands => shown::commands(first.bytes, out),
        Verb::Bench => samples::bench(first.bytes, second.bytes, out),
        Verb::Nothing => Came::NoCall,
    }
}
