// The calls for C and Rust, under their plain names; include/voltamar.h declares them and says each contract in words.
// Promises: each answer, and all that is written through a pointer, equals a definition, for any input.
// Rests on: sheet, compiler, reader, notice, bench (sheets, streams, samples), lines, term, range, edge, sum, sum_telling (rules and model), answers (handed over in numbers).
#![tactic(auto)]

ghost use Rattle.std.specs.Prelude.{◌≡◌, length};
ghost use Rattle.buffer.specs.Verdict.{verdict_number, verdict_place, outcome_number, outcome_place};
ghost use Rattle.buffer.specs.Room.{outcome, after};
ghost use Rattle.sheet.specs.Reading.{verdict};
ghost use Rattle.sheet.specs.Parts.{section_of, part_start};
ghost use Rattle.compiler.specs.Stream.{compiled};
ghost use Rattle.reader.specs.Back.{read_back};
ghost use Rattle.reader.specs.Meaning.{ReadSays};
ghost use Rattle.notice.specs.Notice.{notice_text, left_by, noticed_number, noticed_which, noticed_place};
ghost use Rattle.bench.specs.Call.{benched, benched_left};
ghost use Rattle.bench.specs.Handed.{run_of, handed_by, outcome_of};
ghost use Rattle.voltamar_c.specs.Noticing.{noticed};

use answers::{hand_noticed, hand_outcome, hand_verdict};

mod model;

// The verdict on a sheet.
#[unsafe(no_mangle)]
pub extern "C" fn voltamar_check(sheet: &[u8], place: &mut usize) -> u8
    ensures value { result ≡ verdict_number (verdict sheet.now) }
    ensures place_after { place.new ≡ verdict_place (verdict sheet.now) }
{
    hand_verdict(sheet::check(sheet), place)
}

// Where the part of the sheet lies that holds a section's records.
#[tactic(auto, unfolding(sheet::specs::Parts::span_of))]
#[unsafe(no_mangle)]
pub extern "C" fn voltamar_section(
    sheet: &[u8],
    number: u8,
    start: &mut usize,
    size: &mut usize,
) -> u8
    ensures value { result ≡ verdict_number (verdict sheet.now) }
    ensures start_after { start.new ≡ part_start sheet.now number }
    ensures size_after { size.new ≡ length (section_of sheet.now number) }
{
    let span = sheet::section_span(sheet, usize::from(number));
    *start = span.start;
    *size = span.size;
    span.refusal
}

// The commands of a sheet, written at the start of `out`.
#[unsafe(no_mangle)]
pub extern "C" fn voltamar_compile(sheet: &[u8], out: &mut [u8], place: &mut usize) -> u8
    ensures value { result ≡ outcome_number (outcome (compiled sheet.now) (length out.old)) }
    ensures place_after { place.new ≡ outcome_place (outcome (compiled sheet.now) (length out.old)) }
    ensures out_after { out.new ≡ after (compiled sheet.now) out.old }
{
    hand_outcome(compiler::compile(sheet, out), place)
}

// The sheet that a command stream sets up, written at the start of `out`.
#[unsafe(no_mangle)]
pub extern "C" fn voltamar_read(stream: &[u8], out: &mut [u8], place: &mut usize) -> u8
    ensures value { result ≡ outcome_number (outcome (read_back stream.now) (length out.old)) }
    ensures place_after { place.new ≡ outcome_place (outcome (read_back stream.now) (length out.old)) }
    ensures out_after { out.new ≡ after (read_back stream.now) out.old }
    ensures meaning { ReadSays stream.now (outcome (read_back stream.now) (length out.old)) out.new }
{
    hand_outcome(reader::read(stream, out), place)
}

// The notice of two sheets, written at the start of `out`.
#[unsafe(no_mangle)]
pub extern "C" fn voltamar_notice(
    old: &[u8],
    new: &[u8],
    out: &mut [u8],
    which: &mut u8,
    place: &mut usize,
) -> u8
    ensures value { result ≡ noticed_number (noticed old.now new.now (length out.old)) }
    ensures which_after { which.new ≡ noticed_which (noticed old.now new.now (length out.old)) }
    ensures place_after { place.new ≡ noticed_place (noticed old.now new.now (length out.old)) }
    ensures out_after { out.new ≡ left_by (noticed old.now new.now (length out.old)) (notice_text old.now new.now) out.old }
{
    hand_noticed(notice::notice(old, new, out), which, place)
}

// The samples that capture takes of a run, written at the start of `out`. The run is five words, which are read and, when done, written.
#[unsafe(no_mangle)]
pub extern "C" fn voltamar_bench(
    sheet: &[u8],
    samples: &[u32],
    run: &mut [u32],
    out: &mut [u32],
    place: &mut usize,
) -> u8
    ensures value { result ≡ outcome_number (outcome_of (benched sheet.now samples.now (run_of run.old) (length out.old))) }
    ensures place_after { place.new ≡ outcome_place (outcome_of (benched sheet.now samples.now (run_of run.old) (length out.old))) }
    ensures run_after { run.new ≡ handed_by (benched sheet.now samples.now (run_of run.old) (length out.old)) run.old }
    ensures out_after { out.new ≡ benched_left sheet.now samples.now (run_of run.old) out.old }
{
    hand_outcome(bench::bench_words(sheet, samples, run, out), place)
}
