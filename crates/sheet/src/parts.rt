// The parts of a sheet: its sections.
ghost use Rattle.std.specs.Prelude.{◌≡◌};
ghost use Rattle.buffer.specs.Part.{Part};
ghost use Rattle.buffer.specs.declared.Verdict.TheVariants.{Accepted};
ghost use Rattle.sheet.specs.Parts.{section_of, section_start, span_of, judged_of};
ghost use Rattle.sheet.specs.Reading.{verdict};

use crate::judge::check;
use crate::{Judged, Span};
use buffer::Verdict;
use kinds::SECTIONS;
use records::section_size;

// Where the sections of an accepted sheet lie.
fn lay_out(sheet: &[u8]) -> Judged
    requires { verdict sheet.now ≡ Accepted }
    ensures { result ≡ judged_of sheet.now }
{
    let mut starts = [0usize; SECTIONS];
    let mut sizes = [0usize; SECTIONS];
    let mut at = 0;
    for section in 0..SECTIONS {
        let size = section_size(section, peek::byte_at(sheet, at));
        starts[section] = at + 1;
        sizes[section] = size - 1;
        at += size;
    }
    Judged {
        refusal: 0,
        place: 0,
        starts,
        sizes,
    }
}

// The verdict on a sheet and where all its sections lie, in numbers: for a caller that needs every section of one sheet.
pub fn judge_parts(sheet: &[u8]) -> Judged
    ensures { result ≡ judged_of sheet.now }
{
    match check(sheet) {
        Verdict::Refused(refusal, place) => Judged {
            refusal,
            place,
            starts: [0; SECTIONS],
            sizes: [0; SECTIONS],
        },
        Verdict::Accepted => lay_out(sheet),
    }
}

// The part of the sheet that holds a section's records, without the count; empty for a refused sheet, and for a section
// that no sheet has.
pub fn section<'a>(sheet: &'a [u8], number: usize) -> &'a [u8]
    ensures { Part sheet.entry result (section_start sheet.now number) (section_of sheet.now number) }
{
    if SECTIONS <= number {
        return &sheet[..0];
    }
    let found = judge_parts(sheet);
    let start = found.starts[number];
    &sheet[start..start + found.sizes[number]]
}

// Where the part that `section` hands out lies, in numbers: for a caller to whom no slice can be handed.
pub fn section_span(sheet: &[u8], number: usize) -> Span
    ensures { result ≡ span_of sheet.now number }
{
    let found = judge_parts(sheet);
    if SECTIONS <= number || found.sizes[number] == 0 {
        return Span {
            refusal: found.refusal,
            start: 0,
            size: 0,
        };
    }
    Span {
        refusal: found.refusal,
        start: found.starts[number],
        size: found.sizes[number],
    }
}
