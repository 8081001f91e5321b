// `bench`: the programme of a sheet over the samples of a file, from a fresh run. What capture takes is written in the form that the
// file has.
ghost use Rattle.std.specs.Prelude.{◌≡◌, ◌*◌, ◌≤◌, [], length};
ghost use Rattle.buffer.specs.declared.Verdict.TheVariants.{Accepted, Refused};
ghost use Rattle.peek.specs.Fields.{fields_from};
ghost use Rattle.sheet.specs.Reading.{verdict};
ghost use Rattle.bench.specs.Run.{fresh};
ghost use Rattle.bench.specs.Call.{most_samples, benched, benched_left};
ghost use Rattle.verbs.specs.Samples.{words_in, samples_verdict, taken_bytes};
ghost use Rattle.verbs.specs.Result.{unless, came_of, Gives};

use crate::Came;
use bench::{Benched, MOST_SAMPLES};
use buffer::Verdict;

// A sample's bytes, least byte first.
const WIDTH: usize = 4;

// The words of a file, as many as there is room for.
fn put_samples(samples: &mut [u32], bytes: &[u8])
    requires { 4 * length samples.old ≤ length bytes.now }
    ensures { samples.new ≡ fields_from (length samples.old) 0 bytes.now }
{
    for (i, sample) in samples.iter_mut().enumerate() {
        *sample = peek::u32_at(bytes, WIDTH * i);
    }
}

// Too many samples, unless the sheet is refused.
fn too_many(sheet: &[u8]) -> Came
    ensures { result ≡ came_of (unless (verdict sheet.now) (Refused 20 most_samples) []) 0 }
{
    match sheet::check(sheet) {
        Verdict::Refused(number, place) => Came::First(number, place),
        Verdict::Accepted => Came::Second(bench::TOO_MANY_SAMPLES, MOST_SAMPLES),
    }
}

// A fresh run over the first words of a file, no more of them than a call of the bench takes. What capture takes goes
// to the start of `taken`.
fn run_words(sheet: &[u8], words: &[u8], count: usize, taken: &mut [u32]) -> Benched
    requires count_le_most_samples { count ≤ most_samples }
    requires count_in_bounds { 4 * count ≤ length words.now }
    ensures value { result ≡ benched sheet.now (fields_from count 0 words.now) fresh (length taken.old) }
    ensures taken_after { taken.new ≡ benched_left sheet.now (fields_from count 0 words.now) fresh taken.old }
{
    let mut room = [0u32; MOST_SAMPLES];
    let samples = &mut room[..count];
    put_samples(samples, words);
    bench::bench(sheet, samples, bench::fresh(), taken)
}

fn bench_words(sheet: &[u8], words: &[u8], count: usize, out: &mut [u8]) -> Came
    requires count_le_most_samples { count ≤ most_samples }
    requires count_in_bounds { 4 * count ≤ length words.now }
    ensures { Gives (unless (verdict sheet.now) Accepted (taken_bytes sheet.now (fields_from count 0 words.now))) out.old result out.new }
{
    let mut taken = [0u32; MOST_SAMPLES];
    match run_words(sheet, words, count, &mut taken) {
        Benched::Refused(number, place) => Came::First(number, place),
        Benched::Done(n, _) => Came::from(buffer::put_numbers(out, &taken[..n])),
    }
}

pub(crate) fn bench(sheet: &[u8], words: &[u8], out: &mut [u8]) -> Came
    ensures { Gives (unless (verdict sheet.now) (samples_verdict (words_in words.now)) (taken_bytes sheet.now (words_in words.now))) out.old result out.new }
{
    let count = words.len() / WIDTH;
    if MOST_SAMPLES < count {
        return too_many(sheet);
    }
    bench_words(sheet, words, count, out)
}
