// The least pattern of the sources that tells two sums apart: of each half the least patterns by class, and then of
// both.
ghost use Rattle.std.specs.Prelude.{◌≡◌, ℕ, ◌≤◌, ◌<◌, get_or};
ghost use Rattle.lut.specs.Telling.{Says, Least};
ghost use Rattle.lut.specs.Table.{one_if};
ghost use Rattle.sum.specs.Model.{sum_hit, hit};
ghost use Rattle.sum_telling.specs.Telling.{least_pattern, sum_telling};
ghost use Rattle.sum_telling.specs.Halves.{mid_at, least_with, found_least};

use crate::finals::{NONE, final_least, first_sources, last_sources};
use crate::half::{Half, first_half, last_half};
use crate::least::half_least;
use lut::{Input, Telling};

// What a half's mid answers where no source hits.
#[tactic(auto, using(crate::proofs::Steps::mid_none))]
fn mid_at_none(h: Half) -> u32
    ensures { (result ≡ mid_at h 0) × (result < 2) }
{
    let v = h.first % 2 + 2 * (h.first / 65536 % 2);
    let w = h.second % 2 + 2 * (h.second / 65536 % 2);
    lut::answer_at(h.mid, v + 4 * w)
}

// What final answers where no source hits.
#[tactic(auto, using(crate::proofs::Steps::none_hit))]
fn hit_at_none(w: [u32; 6]) -> u32
    ensures { result ≡ one_if (sum_hit w 0) }
{
    let first = mid_at_none(first_half(w));
    let last = mid_at_none(last_half(w));
    lut::answer_at(w[0] % 65536, first + 2 * last)
}

// The least sources of a half by class, by the sources of a pattern of the half.
fn least_sources<F: Fn(u32) -> u32>(old: &Half, new: &Half, sources: F) -> [u32; 4]
    requires { (n : ℕ) → n ≤ 256 → F.pre sources n }
    ensures { (c : ℕ) → c < 4 → F.post sources (least_with old.now new.now c) (get_or result c 0) }
{
    let l = half_least(old, new);
    [
        sources((l % 0x1_0000) as u32),
        sources((l / 0x1_0000 % 0x1_0000) as u32),
        sources((l / 0x1_0000_0000 % 0x1_0000) as u32),
        sources((l / 0x1_0000_0000_0000) as u32),
    ]
}

// The least of all sources on which both halves have classes that the final tables tell apart; NONE or more if there
// are none.
fn found_least(old: [u32; 6], new: [u32; 6]) -> u32
    ensures { result ≡ found_least old new }
{
    let first = least_sources(&first_half(old), &first_half(new), first_sources);
    let last = least_sources(&last_half(old), &last_half(new), last_sources);
    final_least(old[0] % 65536, new[0] % 65536, first, last)
}

// The least pattern on which the model does not answer alike over any two chains of six words; NONE if there is none.
// The pattern without a source is asked first: it often tells, and none is less.
#[tactic(auto, using(crate::proofs::Steps::none_tells_first, crate::proofs::Found::found_is_least, crate::proofs::Found::found_none))]
pub(crate) fn least_pattern(old: [u32; 6], new: [u32; 6]) -> u32
    ensures { result ≡ least_pattern old new }
{
    if hit_at_none(old) != hit_at_none(new) {
        return 0;
    }
    let least = found_least(old, new);
    if least < NONE { least } else { NONE }
}

// What tells two sums apart: the least pattern that does, or that there is none.
pub(crate) fn sum_telling(old: [u8; 11], new: [u8; 11]) -> Telling
    ensures value { result ≡ sum_telling old new }
    ensures meaning { Says (hit old) (hit new) result }
    ensures least { Least (hit old) (hit new) result }
{
    let least = least_pattern(sum::words_of(old), sum::words_of(new));
    if least < NONE {
        Telling::Apart(Input::Sources(least))
    } else {
        Telling::Alike
    }
}
