// What tells two ranges apart: the lines that cannot matter are dropped, and then the bounds and the masks are compared.
ghost use Rattle.std.specs.Prelude.{◌≡◌, ◌≢◌, false, ◌-◌, ◌^◌, ◌<◌, leb};
ghost use Rattle.lines.specs.Line.{line, flip_line};
ghost use Rattle.lut.specs.Telling.{Says};
ghost use Rattle.range.specs.Rule.{hit_of, hit, Accepted};
ghost use Rattle.range_telling.specs.Reduce.{idle};
ghost use Rattle.range_telling.specs.Telling.{turn_value, turn_sample, tell_line, first_differ, tell_masks, tell_bounds, range_telling};

use crate::reduced::reduce;
use lut::{Input, Telling};
use range::{Range, range_hit};

// Whether the bounds are at least 2 ^ j apart.
fn spans(r: Range, j: u32) -> bool
    requires { j < 32 }
    ensures { result ≡ leb (2 ^ j) (r.upper - r.lower) }
{
    1u32 << j <= r.upper.saturating_sub(r.lower)
}

// A number at which changing bit j changes whether it lies within the bounds.
fn turn_value(r: Range, j: u32) -> u32
    requires bit { j < 32 }
    requires busy { idle r ≡ false }
    ensures { result ≡ turn_value r.lower r.upper j }
{
    if r.lower % 2 == 1 {
        if lines::line_value(r.lower, j) == 0 && spans(r, j) {
            r.lower - 1
        } else {
            r.lower
        }
    } else if lines::line_value(r.upper, j) == 1 && spans(r, j) {
        r.upper + 1
    } else {
        r.upper
    }
}

// The sample with line i changed.
fn flip_line(sample: u32, i: u32) -> u32
    requires { i < 32 }
    ensures { result ≡ flip_line i sample }
{
    sample ^ (1u32 << i)
}

// A sample at which changing the masked line i changes the range's hit.
fn turn_sample(r: Range, i: u32) -> u32
    requires within { i < 32 }
    requires masked { line r.mask i ≡ 1 }
    requires busy { idle r ≡ false }
    ensures { result ≡ turn_sample r i }
{
    lines::scatter(turn_value(r, lines::rank(r.mask, i)), r.mask)
}

fn hits(r: Range, sample: u32) -> bool
    ensures { result ≡ hit_of r sample }
{
    range_hit(r.lower, r.upper, r.mask, sample)
}

// Line i is masked in a and not in b.
fn tell_line(a: Range, b: Range, i: u32) -> u32
    requires within { i < 32 }
    requires masked { line a.mask i ≡ 1 }
    requires busy { idle a ≡ false }
    ensures { result ≡ tell_line a b i }
{
    let s = turn_sample(a, i);
    if hits(a, s) == hits(b, s) {
        return flip_line(s, i);
    }
    s
}

// The masks differ, and the lowest line at which they do is masked in one of the two.
fn tell_masks(a: Range, b: Range) -> u32
    requires differ { a.mask ≢ b.mask }
    requires first_busy { idle a ≡ false }
    requires second_busy { idle b ≡ false }
    ensures { result ≡ tell_masks a b (first_differ 32 a.mask b.mask) }
{
    let i = (a.mask ^ b.mask).trailing_zeros();
    if lines::line_value(a.mask, i) == 1 {
        tell_line(a, b, i)
    } else {
        tell_line(b, a, i)
    }
}

// The masks are equal.
fn tell_bounds(a: Range, b: Range) -> Telling
    ensures { result ≡ tell_bounds a b }
{
    if a.lower != b.lower {
        return Telling::Apart(Input::Sample(lines::scatter(a.lower.min(b.lower), a.mask)));
    }
    if a.upper != b.upper {
        return Telling::Apart(Input::Sample(lines::scatter(a.upper.max(b.upper), a.mask)));
    }
    Telling::Alike
}

// What tells two ranges apart: a sample, or that there is none.
pub(crate) fn range_telling(old: Range, new: Range) -> Telling
    ensures value { result ≡ range_telling old new }
    ensures says { Accepted old → Accepted new → Says (hit old) (hit new) result }
{
    let p = reduce(old);
    let q = reduce(new);
    if p.mask == q.mask {
        return tell_bounds(p, q);
    }
    Telling::Apart(Input::Sample(tell_masks(p, q)))
}
