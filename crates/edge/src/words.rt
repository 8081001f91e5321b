// The chain words of a description.
ghost use Rattle.std.specs.Prelude.{◌≡◌, ◌<◌};
ghost use Rattle.edge.specs.Words.{pair_table, word_at, edge_words};

use crate::Edge;

// What a table has for one event, on its upper and on its lower line.
#[derive(Clone, Copy)]
pub(crate) struct Tables {
    pub upper: u32,
    pub lower: u32,
}

pub(crate) const RISE: Tables = Tables {
    upper: 0x00CC,
    lower: 0x0A0A,
};

pub(crate) const FALL: Tables = Tables {
    upper: 0x3300,
    lower: 0x5050,
};

pub(crate) const NEITHER: Tables = Tables {
    upper: 0xCC33,
    lower: 0xA5A5,
};

// The table of the lines 2 * pair + 1 and 2 * pair: the OR of what they ask for.
#[tactic(auto, unfolding(crate::specs::Words::pair_table), using(crate::proofs::Pair::upper_line, crate::proofs::Pair::pair_lt))]
fn pair_table(pair: u32, e: Edge) -> u32
    requires { pair < 16 }
    ensures { (result ≡ pair_table pair e.rise e.fall e.neither) × (result < 65536) }
{
    let r = e.rise >> (2 * pair);
    let f = e.fall >> (2 * pair);
    let n = e.neither >> (2 * pair);
    let upper = r / 2 % 2 * RISE.upper | f / 2 % 2 * FALL.upper | n / 2 % 2 * NEITHER.upper;
    let lower = r % 2 * RISE.lower | f % 2 * FALL.lower | n % 2 * NEITHER.lower;
    upper | lower
}

// The word of the lines 4 * k + 3 to 4 * k.
fn word_at(k: u32, e: Edge) -> u32
    requires { k < 8 }
    ensures { result ≡ word_at e.rise e.fall e.neither k }
{
    pair_table(2 * k + 1, e) * 65536 + pair_table(2 * k, e)
}

// The eight chain words of a description, in sending order. Three numbers, since an edge would be handed on in memory,
// which takes a sixth longer.
#[tactic(auto, unfolding(lut::specs::Table::down))]
pub(crate) fn edge_words(rise: u32, fall: u32, neither: u32) -> [u32; 8]
    ensures { result ≡ edge_words rise fall neither }
{
    let edge = Edge {
        rise,
        fall,
        neither,
    };
    std::array::from_fn(|i| word_at(7 - i as u32, edge))
}
