// Both halves through the final tables: the sources of their least patterns, and the least on which the two differ.
ghost use Rattle.std.specs.Prelude.{◌≡◌, cond, ℕ, ◌+◌, ◌≤◌, ◌<◌, eqb, get_or};
ghost use Rattle.sum_telling.specs.Halves.{first_sources, last_sources, row_least, final_least};

// How many patterns of the sources there are: a number from here on is none.
pub(crate) const NONE: u32 = 65536;

// The sources of a pattern of the first half, 0 to 4, 10, 12 and 14 [M6]; none for 256.
#[tactic(auto, using(crate::proofs::Found::first_most), unfolding(crate::specs::Halves::first_sources))]
pub(crate) fn first_sources(n: u32) -> u32
    requires { n ≤ 256 }
    ensures { (result ≡ first_sources n) × (result ≤ 65536) }
{
    n % 32 + n / 32 % 2 * 1024 + n / 64 % 2 * 4096 + n / 128 % 2 * 16384 + n / 256 * NONE
}

// The sources of a pattern of the last half, 5 to 9, 11, 13 and 15.
#[tactic(auto, using(crate::proofs::Found::last_most), unfolding(crate::specs::Halves::last_sources))]
pub(crate) fn last_sources(n: u32) -> u32
    requires { n ≤ 256 }
    ensures { (result ≡ last_sources n) × (result ≤ 65536) }
{
    n % 32 * 32 + n / 32 % 2 * 2048 + n / 64 % 2 * 8192 + n / 128 % 2 * 32768 + n / 256 * NONE
}

// Sources that count only where two answers differ; none where they do not.
fn if_apart(a: u32, b: u32, sources: u32) -> u32
    requires { sources ≤ 131072 }
    ensures { result ≡ sources + cond (eqb a b) 65536 0 }
{
    if a == b { sources + NONE } else { sources }
}

// The least sources of one class of the first half and any of the last half on which the final tables differ.
#[tactic(auto, unfolding(crate::specs::Halves::row_least))]
fn row_least(old: u32, new: u32, class: u32, first: u32, last: [u32; 4]) -> u32
    requires class_bound { class < 4 }
    requires first_bound { first ≤ 65536 }
    requires last_bound { (i : ℕ) → get_or last i 0 ≤ 65536 }
    ensures { result ≡ row_least old new class first last }
{
    let a = lut::answer_at(old, class % 2);
    let b = lut::answer_at(old, class % 2 + 2);
    let c = lut::answer_at(new, class / 2);
    let d = lut::answer_at(new, class / 2 + 2);
    let low = if_apart(a, c, first + last[0]).min(if_apart(b, c, first + last[1]));
    let high = if_apart(a, d, first + last[2]).min(if_apart(b, d, first + last[3]));
    low.min(high)
}

// The least sources of any class of each half on which the final tables differ.
#[tactic(auto, unfolding(crate::specs::Halves::final_least))]
pub(crate) fn final_least(old: u32, new: u32, first: [u32; 4], last: [u32; 4]) -> u32
    requires first_bound { (i : ℕ) → get_or first i 0 ≤ 65536 }
    requires last_bound { (i : ℕ) → get_or last i 0 ≤ 65536 }
    ensures { result ≡ final_least old new first last }
{
    let low = row_least(old, new, 0, first[0], last).min(row_least(old, new, 1, first[1], last));
    let high = row_least(old, new, 2, first[2], last).min(row_least(old, new, 3, first[3], last));
    low.min(high)
}
