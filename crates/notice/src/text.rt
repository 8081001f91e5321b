// The text of a notice line, written into lent room from an index on. Each writer asks that its text fits.
ghost use Rattle.std.specs.Prelude.{◌≡◌, ◌+◌, ◌≤◌, ◌<◌, ◌∷◌, length};
ghost use Rattle.buffer.specs.Room.{Wrote};
ghost use Rattle.notice.specs.Text.{hex_digit, hex, slot_text, input_text, change_text, finding_text, render};

use findings::{Finding, Line};
use lut::{Input, Telling};
use records::slot_digits;

// The hex digits of a sample, which has 32 lines, and of sixteen sources.
const SAMPLE_DIGITS: usize = 8;

const SOURCES_DIGITS: usize = 4;

// A text that fits, from `at` on; answers the index behind it. It asks something of its caller, so it is private, and report
// has one of its own.
pub(crate) fn put(out: &mut [u8], at: usize, text: &[u8]) -> usize
    requires { at + length text.now ≤ length out.old }
    ensures { Wrote at text.now out.old out.new result }
{
    buffer::put_at(out, at, text)
}

fn hex_digit(d: u8) -> u8
    requires { d < 16 }
    ensures { result ≡ hex_digit d }
{
    if d < 10 { b'0' + d } else { b'A' + (d - 10) }
}

// The lowest hex digits, the highest of them first.
fn hex<const DIGITS: usize>(x: u32) -> [u8; DIGITS]
    ensures { result ≡ hex DIGITS x }
{
    let mut digits = [0; DIGITS];
    let mut rest = x;
    for i in 0..DIGITS {
        digits[DIGITS - 1 - i] = hex_digit((rest % 16) as u8);
        rest /= 16;
    }
    digits
}

// Digits behind a space.
fn put_spaced(out: &mut [u8], at: usize, digits: &[u8]) -> usize
    requires { at + (1 + length digits.now) ≤ length out.old }
    ensures { Wrote at (32 ∷ digits.now) out.old out.new result }
{
    let next = put(out, at, b" ");
    put(out, next, digits)
}

// The slot in two decimal digits, between spaces.
fn slot_text(slot: u8) -> [u8; 4]
    ensures { result ≡ slot_text slot }
{
    let [tens, ones] = slot_digits(slot);
    [b' ', tens, ones, b' ']
}

// The input that tells two descriptions apart.
fn put_input(out: &mut [u8], at: usize, input: Input) -> usize
    requires { at + length (input_text input) ≤ length out.old }
    ensures { Wrote at (input_text input) out.old out.new result }
{
    match input {
        Input::Nothing => at,
        Input::Sample(sample) => put_spaced(out, at, &hex::<SAMPLE_DIGITS>(sample)),
        Input::Samples(earlier, later) => {
            let next = put_spaced(out, at, &hex::<SAMPLE_DIGITS>(earlier));
            put_spaced(out, next, &hex::<SAMPLE_DIGITS>(later))
        }
        Input::Sources(sources) => put_spaced(out, at, &hex::<SOURCES_DIGITS>(sources)),
    }
}

// What is said of a changed description, and the line's end.
fn put_change(out: &mut [u8], at: usize, telling: Telling) -> usize
    requires { at + length (change_text telling) ≤ length out.old }
    ensures { Wrote at (change_text telling) out.old out.new result }
{
    match telling {
        Telling::Alike => put(out, at, b"WORD\n"),
        Telling::Apart(input) => {
            let at1 = put(out, at, b"ALTR");
            let at2 = put_input(out, at1, input);
            put(out, at2, b"\n")
        }
    }
}

// A finding and the line's end.
fn put_finding(out: &mut [u8], at: usize, finding: Finding) -> usize
    requires { at + length (finding_text finding) ≤ length out.old }
    ensures { Wrote at (finding_text finding) out.old out.new result }
{
    match finding {
        Finding::New => put(out, at, b"NEW\n"),
        Finding::Gone => put(out, at, b"GONE\n"),
        Finding::Name => put(out, at, b"NAME\n"),
        Finding::Changed(telling) => put_change(out, at, telling),
    }
}

// A whole line: the section's letters, the slot, the finding.
pub(crate) fn put_line(out: &mut [u8], at: usize, line: Line) -> usize
    requires { at + length (render line) ≤ length out.old }
    ensures { Wrote at (render line) out.old out.new result }
{
    let name = kinds::row_of(line.section).name;
    let finding = line.finding;
    let digits = slot_text(line.slot);
    let at1 = put(out, at, &name);
    let at2 = put(out, at1, &digits);
    put_finding(out, at2, finding)
}
