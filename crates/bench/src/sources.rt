// The sources on a sample, by the plain rules, from the highest down.
ghost use Rattle.std.specs.Prelude.{◌≡◌, ◌+◌, ◌*◌, ◌≤◌, ◌<◌};
ghost use Rattle.lut.specs.Table.{one_if};
ghost use Rattle.programme.specs.Table.{term_at, range_at, edge_at, plain};
ghost use Rattle.bench.specs.Asking.{sources_from};

use crate::Table;

// One more source below those that are there.
fn below(found: u32, hit: bool) -> u32
    requires { found < 65536 }
    ensures { (result ≡ found * 2 + one_if hit) × (result ≤ found * 2 + 1) }
{
    found * 2 + u32::from(hit)
}

fn term_at(table: &Table, sample: u32, i: usize) -> bool
    requires { i < 10 }
    ensures { result ≡ term_at table.now sample i }
{
    sample & table[2 * i + 1] == table[2 * i]
}

// The bounds stand on the masked lines, so that the sample need not be gathered. Both are compared: a branch is dearer.
fn range_at(table: &Table, sample: u32, i: usize) -> bool
    requires { i < 2 }
    ensures { result ≡ range_at table.now sample i }
{
    let x = sample & table[22 + 3 * i];
    let above = table[20 + 3 * i] <= x;
    let below = x <= table[21 + 3 * i];
    above & below
}

fn edge_at(table: &Table, earlier: u32, sample: u32, i: usize) -> bool
    requires { i < 2 }
    ensures { result ≡ edge_at table.now earlier sample i }
{
    edge::edge_hit(
        table[26 + 3 * i],
        table[27 + 3 * i],
        table[28 + 3 * i],
        earlier,
        sample,
    )
}

// The ranges and edges, and above them the timers, which are 0; the terms go below.
#[tactic(auto, using(crate::proofs::Found::upper_found))]
fn upper_sources(table: &Table, earlier: u32, sample: u32) -> u32
    ensures { (result ≡ sources_from table.now earlier sample 10) × (result < 16) }
{
    let edges = below(
        below(0, edge_at(table, earlier, sample, 1)),
        edge_at(table, earlier, sample, 0),
    );
    below(
        below(edges, range_at(table, sample, 1)),
        range_at(table, sample, 0),
    )
}

#[tactic(auto, using(crate::proofs::Found::term_found, crate::proofs::Found::found_lt, crate::proofs::Found::all_found))]
pub(crate) fn sources_of(table: &Table, earlier: u32, sample: u32) -> u32
    ensures { result ≡ (plain table.now).sources earlier sample }
{
    let mut found = upper_sources(table, earlier, sample);
    for i in (0..10).rev() {
        found = below(found, term_at(table, sample, i));
    }
    found
}
