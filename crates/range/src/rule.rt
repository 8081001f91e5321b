// The plain rule of a hit, and the faults of a description.
ghost use Rattle.std.specs.Prelude.{◌≡◌};
ghost use Rattle.range.specs.Rule.{range_hit, range_fault};

use crate::Range;

// Whether the masked lines of the sample, gathered into a number, lie between the bounds.
pub fn range_hit(lower: u32, upper: u32, mask: u32, sample: u32) -> bool
    ensures { result ≡ range_hit lower upper mask sample }
{
    let x = lines::gather(sample, mask);
    (lower..=upper).contains(&x)
}

// The refusal number of a description, 0 for none.
pub(crate) fn range_fault(r: Range) -> u8
    ensures { result ≡ range_fault r.lower r.upper r.mask }
{
    if r.lower == 0 {
        return 6;
    }
    if r.upper < r.lower {
        return 7;
    }
    if (1u64 << r.mask.count_ones()) - 1 < u64::from(r.upper) {
        return 8;
    }
    0
}
