// The least patterns of a half by class: what its old mid answers + 2 * what its new mid answers.
ghost use Rattle.std.specs.Prelude.{◌≡◌, ℕ, ◌+◌, ◌*◌, ◌/◌, ◌%◌, ◌≤◌, ◌<◌, cond, [], ◌∷◌, eqb, get_or};
ghost use Rattle.std.specs.Int.Count.{count_trailing_zeros};
ghost use Rattle.lines.specs.Line.{line};
ghost use Rattle.lut.specs.Table.{one_if};
ghost use Rattle.sum_telling.specs.Telling.{first_from};
ghost use Rattle.sum_telling.specs.Halves.{half_least, packed};

use crate::half::Half;
use crate::sets::{ALL, mid_sets};

// No pattern where a mid has to answer 1, all where it has to answer 0: what turns its answers over.
#[tactic(auto, using(crate::proofs::Chosen::in_all, crate::proofs::Chosen::in_none))]
fn turned(answer: u32) -> u64
    ensures { (k : ℕ) → k < 64 → line result k ≡ cond (eqb answer 1) 0 1 }
{
    if answer == 1 { 0 } else { ALL }
}

// The patterns that have a class, of 64.
#[tactic(auto, using(crate::proofs::Chosen::of_class))]
fn class_set(old: u64, new: u64, class: u32) -> u64
    requires { class < 4 }
    ensures { (k : ℕ) → k < 64 → line result k ≡ one_if (eqb (line old k + 2 * line new k) class) }
{
    (old ^ turned(class % 2)) & (new ^ turned(class / 2))
}

// The least pattern of a word of a set, counted from `start` on, or else what the words behind it have.
fn first_or(word: u64, start: u32, others: u32) -> u32
    requires { start < 256 }
    ensures { (result ≡ cond (eqb word 0) others (start + count_trailing_zeros 64 word)) × ((word ≡ 0 → ⊥) → count_trailing_zeros 64 word < 64) }
{
    if word == 0 {
        others
    } else {
        start + word.trailing_zeros()
    }
}

// The least pattern of a set; 256 if it has none.
#[tactic(auto, using(crate::proofs::First::words))]
fn first_in(s: [u64; 4]) -> u32
    ensures { result ≡ first_from (λ n. eqb (line (get_or s (n / 64) 0) (n % 64)) 1) 256 0 }
{
    let mut least: u32 = 256;
    for i in (0..4).rev() {
        least = first_or(s[i], 64 * i as u32, least);
    }
    least
}

// The least pattern that has a class, by where the old and the new mid answer 1; 256 if there is none.
fn least_with(old: [u64; 4], new: [u64; 4], class: u32) -> u32
    requires { class < 4 }
    ensures { result ≡ first_from (λ n. eqb (line (get_or old (n / 64) 0) (n % 64) + 2 * line (get_or new (n / 64) 0) (n % 64)) class) 256 0 }
{
    first_in(std::array::from_fn(|i| class_set(old[i], new[i], class)))
}

// Four patterns in one word: an array would go through memory, and what is read of it wait for what is written.
fn pack(a: u32, b: u32, c: u32, d: u32) -> u64
    requires { (a ≤ 256) × (b ≤ 256) × (c ≤ 256) × (d ≤ 256) }
    ensures { result ≡ packed (a ∷ b ∷ c ∷ d ∷ []) }
{
    u64::from(a)
        + u64::from(b) * 0x1_0000
        + u64::from(c) * 0x1_0000_0000
        + u64::from(d) * 0x1_0000_0000_0000
}

// The least patterns of a half by class. A half that is the same in both sums has two classes: its mids answer alike.
pub(crate) fn half_least(old: &Half, new: &Half) -> u64
    ensures { result ≡ packed (half_least old.now new.now) }
{
    let before = mid_sets(old);
    if *old == *new {
        return pack(
            least_with(before, before, 0),
            256,
            256,
            least_with(before, before, 3),
        );
    }
    let after = mid_sets(new);
    pack(
        least_with(before, after, 0),
        least_with(before, after, 1),
        least_with(before, after, 2),
        least_with(before, after, 3),
    )
}
