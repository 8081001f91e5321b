// Where a run goes from a state.
ghost use Rattle.std.specs.Prelude.{◌≡◌, false, ℕ, ◌+◌, ◌*◌, ◌<◌, ◌≤◌};
ghost use Rattle.bench.specs.Run.{number_of, after_hit, moved, capture_slot};
ghost use Rattle.programme.specs.Table.{plain};
ghost use Rattle.bench.specs.Asking.{addresses_of};

use crate::sums::sum_at;
use crate::{Moved, Table};

// How often a state's hit sum must match; 0 counts as 1.
#[tactic(auto, unfolding(crate::specs::Run::number_of))]
pub(crate) fn number_of(word: u32) -> u32
    ensures { (result ≡ number_of word) × (result < 1048576) }
{
    (word % 1048576).max(1)
}

fn going(state: u32, count: u32) -> Moved
    ensures { result ≡ record { state = state; count = count; ended = false } }
{
    Moved {
        state,
        count,
        ended: false,
    }
}

// The hit sum matched.
#[tactic(auto, unfolding(crate::specs::Run::after_hit))]
fn after_hit(word: u32, state: u32, count: u32) -> Moved
    requires { (state < 16) × (count < 1048576) }
    ensures { result ≡ after_hit word state count }
{
    if count + 1 < number_of(word) {
        return going(state, count + 1);
    }
    let last = lines::line_value(word, 31) == 1;
    if last | (state == 15) {
        return Moved {
            state,
            count: 0,
            ended: true,
        };
    }
    going(state + 1, 0)
}

// The index of the first word of a state's hit sum; the else sum is 6 and the capture sum 12 words on.
fn sums_of(state: u32) -> usize
    requires { state < 16 }
    ensures { (result ≡ 32 + 18 * state) × (result ≤ 302) }
{
    32 + 18 * (state as usize)
}

#[tactic(auto, unfolding(programme::specs::Table::plain))]
pub(crate) fn word_of(table: &Table, state: u32) -> u32
    requires { state < 16 }
    ensures { result ≡ (plain table.now).word state }
{
    table[320 + state as usize]
}

#[tactic(auto, using(crate::proofs::Slots::slot_matches))]
pub(crate) fn capture_matches(table: &Table, state: u32, addresses: u32) -> bool
    requires { state < 16 }
    ensures { (sources : ℕ) → addresses ≡ addresses_of sources → result ≡ (plain table.now).matches (capture_slot state) sources }
{
    sum_at(table, sums_of(state) + 12, addresses)
}

pub(crate) fn move_on(table: &Table, state: u32, count: u32, addresses: u32) -> Moved
    requires { (state < 16) × (count < 1048576) }
    ensures { (sources : ℕ) → addresses ≡ addresses_of sources → result ≡ moved (plain table.now) state count sources }
{
    let word = word_of(table, state);
    let sums = sums_of(state);
    if sum_at(table, sums, addresses) {
        return after_hit(word, state, count);
    }
    if sum_at(table, sums + 6, addresses) {
        return going(word / 1048576 % 16, 0);
    }
    going(state, count)
}
