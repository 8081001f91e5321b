// Sets of the 256 patterns of a half's eight sources, 64 to a word: a pattern n is in the set if line n % 64 of the word
// n / 64 is 1. So a table is asked for 64 patterns at once, and no branch depends on what it answers.
ghost use Rattle.std.specs.Prelude.{◌≡◌, cond, ℕ, ◌+◌, ◌*◌, ◌/◌, ◌%◌, ◌<◌, eqb, get_or};
ghost use Rattle.lines.specs.Line.{line};
ghost use Rattle.lut.specs.Table.{answer_at};
ghost use Rattle.sum_telling.specs.Halves.{mid_at};

use crate::half::Half;

// All 64 patterns.
pub(crate) const ALL: u64 = 0xFFFF_FFFF_FFFF_FFFF;

// The patterns with source 0 to 5 of the half, in every word; with source 6 and 7 they are whole words.
const WITH0: u64 = 0xAAAA_AAAA_AAAA_AAAA;

const WITH1: u64 = 0xCCCC_CCCC_CCCC_CCCC;

const WITH2: u64 = 0xF0F0_F0F0_F0F0_F0F0;

const WITH3: u64 = 0xFF00_FF00_FF00_FF00;

const WITH4: u64 = 0xFFFF_0000_FFFF_0000;

const WITH5: u64 = 0xFFFF_FFFF_0000_0000;

// All patterns or none, as a table answers at one address.
#[tactic(auto, using(crate::proofs::Chosen::spread_digit))]
fn spread(table: u32, address: u32) -> u64
    ensures { (k : ℕ) → k < 64 → line result k ≡ answer_at table address }
{
    u64::from(lut::answer_at(table, address)) * ALL
}

// The patterns of x that are in s, and those of y that are not.
#[tactic(auto, using(crate::proofs::Chosen::chosen))]
fn choose(s: u64, x: u64, y: u64) -> u64
    ensures { (k : ℕ) → line result k ≡ cond (eqb (line s k) 1) (line x k) (line y k) }
{
    y ^ (s & (x ^ y))
}

// Where a pair's table answers 1, by the patterns with its sources A and B.
#[tactic(auto, using(crate::proofs::Chosen::pick_pair))]
fn pair_set(table: u32, a: u64, b: u64) -> u64
    ensures { (k : ℕ) → k < 64 → line result k ≡ answer_at table (3 * line a k + 12 * line b k) }
{
    choose(
        b,
        choose(a, spread(table, 15), spread(table, 12)),
        choose(a, spread(table, 3), spread(table, 0)),
    )
}

// Where four answers of a mid's table, from `at` on, are 1, by the patterns with the inputs 0 and 1.
#[tactic(auto, using(crate::proofs::Chosen::pick_two))]
fn lower_set(table: u32, at: u32, a: u64, b: u64) -> u64
    requires { at < 16 }
    ensures { (k : ℕ) → k < 64 → line result k ≡ answer_at table (at + (line a k + 2 * line b k)) }
{
    choose(
        b,
        choose(a, spread(table, at + 3), spread(table, at + 2)),
        choose(a, spread(table, at + 1), spread(table, at)),
    )
}

// One of four sets, by the patterns with the inputs 2 and 3.
#[tactic(auto, using(crate::proofs::Chosen::pick_two))]
fn upper_set(l: [u64; 4], c: u64, d: u64) -> u64
    ensures { (k : ℕ) → line result k ≡ line (get_or l (line c k + 2 * line d k) 0) k }
{
    choose(d, choose(c, l[3], l[2]), choose(c, l[1], l[0]))
}

// Where a half's mid answers 1.
pub(crate) fn mid_sets(h: &Half) -> [u64; 4]
    ensures { (n : ℕ) → n < 256 → line (get_or result (n / 64) 0) (n % 64) ≡ mid_at h.now n }
{
    let a = pair_set(h.first % 65536, WITH0, WITH1);
    let b = pair_set(h.first / 65536, WITH2, WITH5);
    let c0 = pair_set(h.second % 65536, WITH3, 0);
    let c1 = pair_set(h.second % 65536, WITH3, ALL);
    let d0 = pair_set(h.second / 65536, WITH4, 0);
    let d1 = pair_set(h.second / 65536, WITH4, ALL);
    let l = [
        lower_set(h.mid, 0, a, b),
        lower_set(h.mid, 4, a, b),
        lower_set(h.mid, 8, a, b),
        lower_set(h.mid, 12, a, b),
    ];
    [
        upper_set(l, c0, d0),
        upper_set(l, c1, d0),
        upper_set(l, c0, d1),
        upper_set(l, c1, d1),
    ]
}
