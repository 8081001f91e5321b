// The call: refusals in their order, then the walk.
ghost use Rattle.std.specs.Prelude.{◌≡◌, length};
ghost use Rattle.programme.specs.Table.{plain};
ghost use Rattle.bench.specs.Run.{fresh, start_accepted};
ghost use Rattle.bench.specs.Call.{benched, benched_left, benched_number, benched_place, BenchNumbered};
ghost use Rattle.bench.specs.Walk.{run_from, Starts, Delivers, Answers};

use crate::moves::{number_of, word_of};
use crate::walk::walk;
use crate::{BAD_RUN, Benched, MOST_SAMPLES, Run, TOO_MANY_SAMPLES, Table, Underway};
use buffer::Outcome;

// The run to begin with.
pub fn fresh() -> Run
    ensures { result ≡ fresh }
{
    Run {
        state: 0,
        count: 0,
        earlier: None,
        ended: false,
    }
}

// Whether a run may be handed in: state 0 to 15, and a count below its number.
#[tactic(auto, unfolding(crate::specs::Run::start_accepted))]
fn start_accepted(table: &Table, run: Run) -> bool
    ensures { result ≡ start_accepted (plain table.now) run }
{
    run.state < 16 && run.count < number_of(word_of(table, run.state))
}

// The walk into room of our own, which is judged before a word of it is handed over: a refusal has written nothing.
#[tactic(auto, using(crate::proofs::Calling::too_short))]
fn deliver_judged(table: &Table, samples: &[u32], from: Underway, out: &mut [u32]) -> Benched
    requires { Starts table.now samples.now from }
    ensures { Delivers (plain table.now) samples.now (run_from from.state from.count from.earlier) out.old result out.new }
{
    let mut room = [0; MOST_SAMPLES];
    let walked = walk(table, samples, from, &mut room);
    let needed = walked.taken;
    if out.len() < needed {
        return Benched::Refused(buffer::OUTPUT_TOO_SHORT, needed);
    }
    buffer::put_words(out, &room[..needed]);
    Benched::Done(needed, walked.run)
}

// The walk, right into the lent words where there is room for all samples.
fn deliver(table: &Table, samples: &[u32], from: Underway, out: &mut [u32]) -> Benched
    requires { Starts table.now samples.now from }
    ensures { Delivers (plain table.now) samples.now (run_from from.state from.count from.earlier) out.old result out.new }
{
    if out.len() < samples.len() {
        return deliver_judged(table, samples, from, out);
    }
    let walked = walk(table, samples, from, out);
    Benched::Done(walked.taken, walked.run)
}

// The call over a table.
pub(crate) fn bench_table(table: &Table, samples: &[u32], run: Run, out: &mut [u32]) -> Benched
    ensures { Answers (plain table.now) samples.now run out.old result out.new }
{
    if MOST_SAMPLES < samples.len() {
        return Benched::Refused(TOO_MANY_SAMPLES, MOST_SAMPLES);
    }
    if !start_accepted(table, run) {
        return Benched::Refused(BAD_RUN, 0);
    }
    if run.ended {
        return Benched::Done(0, run);
    }
    let Some(first) = samples.first() else {
        return Benched::Done(0, run);
    };
    let from = Underway {
        state: run.state,
        count: run.count,
        earlier: run.earlier.unwrap_or(*first),
    };
    deliver(table, samples, from, out)
}

// The call on a sheet: its table is made once, and the samples are run over it.
pub fn bench(sheet: &[u8], samples: &[u32], run: Run, out: &mut [u32]) -> Benched
    ensures value { result ≡ benched sheet.now samples.now run (length out.old) }
    ensures out_after { out.new ≡ benched_left sheet.now samples.now run out.old }
    ensures bench_numbered { BenchNumbered sheet.now samples.now run (length out.old) (benched_number result) (benched_place result) }
{
    let mut table = [0; programme::TABLE_LENGTH];
    match programme::prepare(sheet, &mut table) {
        Outcome::Refused(number, place) => Benched::Refused(number, place),
        Outcome::Done(_) => bench_table(&table, samples, run, out),
    }
}
