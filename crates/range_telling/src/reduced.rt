// The range without the lines that cannot matter.
ghost use Rattle.std.specs.Prelude.{◌≡◌};
ghost use Rattle.range.specs.Rule.{Accepted};
ghost use Rattle.range_telling.specs.Reduce.{idle, halved, reduce_of, Reduces};

use range::Range;

// Whether the lowest masked line cannot matter.
fn is_idle(r: Range) -> bool
    ensures { result ≡ idle r }
{
    r.lower % 2 == 0 && r.upper % 2 == 1
}

// The range without its lowest masked line.
fn halved(r: Range) -> Range
    ensures { result ≡ halved r }
{
    Range {
        lower: r.lower / 2,
        upper: r.upper / 2,
        mask: lines::drop_lowest(r.mask),
    }
}

// While lower is even and upper is odd the lowest masked line cannot matter: it goes, and both bounds are halved.
pub(crate) fn reduce(range: Range) -> Range
    ensures value { result ≡ reduce_of range }
    ensures reduces { Accepted range → Reduces range result }
{
    let mut left = range;
    for _ in 0..32u32 {
        if !is_idle(left) {
            return left;
        }
        left = halved(left);
    }
    left
}
