// Whether a sum matches, by its six words in the table, asked at the addresses that the sources give.
ghost use Rattle.std.specs.Prelude.{◌≡◌, ◌+◌, ◌*◌, ◌%◌, ◌≤◌, ◌<◌, length};
ghost use Rattle.lut.specs.Table.{answer_at};
ghost use Rattle.bench.specs.Asking.{address_at, four_of, addresses_of, inputs_at, sum_asked};
ghost use Rattle.programme.specs.Table.{six_at};

use crate::Table;

// The sources of the pairs ab, c, d and e, and of fg, h, i and j: a and b of each one behind the other [M6].
const FIRST_PAIRS: [u32; 8] = [0, 1, 2, 10, 3, 12, 4, 14];

const LAST_PAIRS: [u32; 8] = [5, 6, 7, 11, 8, 13, 9, 15];

// A third of the address at which the table of a pair is asked: source a drives its inputs 0 and 1, source b its inputs
// 2 and 3. The third has one bit for each source, of which no branch is made; all are multiplied at once.
#[tactic(auto, unfolding(crate::specs::Asking::address_at))]
fn third_at(sources: u32, a: u32, b: u32) -> u32
    ensures { (3 * result ≡ address_at sources a b) × (result < 6) }
{
    lines::line_value(sources, a) + 4 * lines::line_value(sources, b)
}

// Thirds of the addresses of four pairs, by their sources. Inlined, so that the pairs are constants in the code.
#[inline(always)]
fn thirds_of(sources: u32, pairs: [u32; 8]) -> u32
    ensures { (3 * result ≡ four_of sources pairs) × (result < 21846) }
{
    third_at(sources, pairs[0], pairs[1])
        + 16 * (third_at(sources, pairs[2], pairs[3])
            + 16 * (third_at(sources, pairs[4], pairs[5])
                + 16 * third_at(sources, pairs[6], pairs[7])))
}

// All eight addresses of a sample's sources.
#[tactic(auto, unfolding(crate::specs::Asking::addresses_of))]
pub(crate) fn addresses_of(sources: u32) -> u32
    ensures { result ≡ addresses_of sources }
{
    3 * (thirds_of(sources, FIRST_PAIRS) + 65536 * thirds_of(sources, LAST_PAIRS))
}

fn answer_in(table: u32, addresses: u32) -> u32
    ensures { (result ≡ answer_at table (addresses % 16)) × (result < 2) }
{
    lut::answer_at(table, addresses % 16)
}

// The inputs of a mid table: the answers of four pairs, whose tables are the two words' halves.
#[tactic(auto, unfolding(crate::specs::Asking::inputs_at))]
fn inputs_at(first: u32, second: u32, addresses: u32) -> u32
    ensures { (result ≡ inputs_at first second addresses) × (result < 16) }
{
    answer_in(first % 65536, addresses)
        + 2 * answer_in(first / 65536, addresses / 16)
        + 4 * answer_in(second % 65536, addresses / 256)
        + 8 * answer_in(second / 65536, addresses / 4096)
}

// The sum whose words begin at an index of the table.
#[tactic(auto, unfolding(crate::specs::Asking::sum_asked, programme::specs::Table::six_at))]
pub(crate) fn sum_at(table: &Table, at: usize, addresses: u32) -> bool
    requires { at + 6 ≤ length table.now }
    ensures { result ≡ sum_asked (six_at table.now at) addresses }
{
    let first = inputs_at(table[at + 5], table[at + 4], addresses);
    let last = inputs_at(table[at + 3], table[at + 2], addresses / 65536);
    let mids = table[at + 1];
    let mid1 = lut::answer_at(mids % 65536, first);
    let mid2 = lut::answer_at(mids / 65536, last);
    lut::answer_at(table[at] % 65536, mid1 + 2 * mid2) == 1
}
