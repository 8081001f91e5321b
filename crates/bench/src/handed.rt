// A run in five words, and the call for those who hand it over so.
ghost use Rattle.std.specs.Prelude.{◌≡◌, ◌&&◌, ◌||◌, eqb, ltb, length};
ghost use Rattle.buffer.specs.Verdict.{outcome_number, outcome_place};
ghost use Rattle.bench.specs.Call.{benched, benched_left, BenchNumbered};
ghost use Rattle.bench.specs.Handed.{no_run, run_of, words_of, handed_by, outcome_of};

use crate::call::bench;
use crate::{Benched, Run};
use buffer::Outcome;

// How many words a run has.
const RUN_WORDS: usize = 5;

// A state that no run is in: words that are no run are refused by it, after the sheet and the samples are judged.
const NO_STATE: u32 = 16;

fn no_run() -> Run
    ensures { result ≡ no_run }
{
    Run {
        state: NO_STATE,
        count: 0,
        earlier: None,
        ended: false,
    }
}

// Whether the last three words are a run's: each flag 0 or 1, and no earlier word where there is none.
fn are_flags(flag: u32, word: u32, ended: u32) -> bool
    ensures { result ≡ ltb flag 2 && ltb ended 2 && (eqb flag 1 || eqb word 0) }
{
    let flags = (flag < 2) & (ended < 2);
    let there = (flag == 1) | (word == 0);
    flags & there
}

// The run of words; where they are none, one that 24 refuses.
#[tactic(auto, unfolding(crate::specs::Handed::is_run, crate::specs::Handed::run_of))]
fn run_of(words: &[u32]) -> Run
    ensures { result ≡ run_of words.now }
{
    let &[state, count, flag, word, ended] = words else {
        return no_run();
    };
    if !are_flags(flag, word, ended) {
        return no_run();
    }
    Run {
        state,
        count,
        earlier: (flag == 1).then_some(word),
        ended: ended == 1,
    }
}

// The five words of a run; its earlier word is a flag and that word, 0 where there is none.
fn words_of(run: Run) -> [u32; RUN_WORDS]
    ensures { result ≡ words_of run }
{
    [
        run.state,
        run.count,
        u32::from(run.earlier.is_some()),
        run.earlier.unwrap_or(0),
        u32::from(run.ended),
    ]
}

// The call, for a run in words.
pub fn bench_words(sheet: &[u8], samples: &[u32], run: &mut [u32], out: &mut [u32]) -> Outcome
    ensures value { result ≡ outcome_of (benched sheet.now samples.now (run_of run.old) (length out.old)) }
    ensures run_after { run.new ≡ handed_by (benched sheet.now samples.now (run_of run.old) (length out.old)) run.old }
    ensures out_after { out.new ≡ benched_left sheet.now samples.now (run_of run.old) out.old }
    ensures bench_numbered { BenchNumbered sheet.now samples.now (run_of run.old) (length out.old) (outcome_number result) (outcome_place result) }
{
    let handed = run_of(run);
    match bench(sheet, samples, handed, out) {
        Benched::Refused(number, place) => Outcome::Refused(number, place),
        Benched::Done(n, next) => {
            run.copy_from_slice(&words_of(next));
            Outcome::Done(n)
        }
    }
}
