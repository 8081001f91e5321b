// The walk over the samples, in one pass.
ghost use Rattle.std.specs.Prelude.{◌≡◌, ◌+◌, ◌≤◌, ◌<◌, length, set, true, cond};
ghost use Rattle.lut.specs.Table.{one_if};
ghost use Rattle.bench.specs.Walk.{run_at, run_from, Starts, Walks};
ghost use Rattle.programme.specs.Table.{plain};

use crate::moves::{capture_matches, move_on};
use crate::sources::sources_of;
use crate::sums::addresses_of;
use crate::{Run, Table, Underway, Walked};

impl Underway {
    // The run that it is, or that it was when it ended.
    fn to_run(self, ended: bool) -> Run
        ensures { result ≡ run_at self ended }
    {
        Run {
            state: self.state,
            count: self.count,
            earlier: Some(self.earlier),
            ended,
        }
    }
}

// A word at an index of the lent words, if it was taken. Answers the next index.
fn put_word(out: &mut [u32], n: usize, sample: u32, taken: bool) -> usize
    requires { n < length out.old }
    ensures { (result ≡ n + one_if taken) × (out.new ≡ cond taken (set out.old n sample) out.old) }
{
    if taken {
        out[n] = sample;
        return n + 1;
    }
    n
}

// Walks until the run ends or the samples do. There is room for all samples, so that no word is judged by itself.
#[tactic(auto, using(crate::proofs::Standing::number_within))]
pub(crate) fn walk(table: &Table, samples: &[u32], mut run: Underway, out: &mut [u32]) -> Walked
    requires starts { Starts table.now samples.now run }
    requires samples_in_bounds { length samples.now ≤ length out.old }
    ensures { Walks (plain table.now) samples.now (run_from run.state run.count run.earlier) out.old result out.new }
{
    let mut n = 0;
    // By value: over references the loop is slower by a twentieth.
    for sample in samples.iter().copied() {
        let addresses = addresses_of(sources_of(table, run.earlier, sample));
        n = put_word(out, n, sample, capture_matches(table, run.state, addresses));
        let moved = move_on(table, run.state, run.count, addresses);
        run = Underway {
            state: moved.state,
            count: moved.count,
            earlier: sample,
        };
        if moved.ended {
            return Walked {
                taken: n,
                run: run.to_run(true),
            };
        }
    }
    Walked {
        taken: n,
        run: run.to_run(false),
    }
}
