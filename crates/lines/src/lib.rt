// The 32 lines of a sample: one line, the masked lines packed into a number, and a number put back on the masked lines.
// Promises: each call equals its definition in specs/, for any numbers; the laws of digits, lines and computed tests stand in proofs/.
// Rests on: nothing.
#![tactic(auto)]

mod nibbles;

ghost use Rattle.std.specs.Prelude.{◌≡◌};
ghost use Rattle.lines.specs.Line.{line};
ghost use Rattle.lines.specs.Gather.{gathered, scattered, drop_lowest};
ghost use Rattle.std.specs.Int.Count.{ones_in};

use nibbles::{packed_nibbles, unmasked_in_bytes, unmasked_in_lower};

// The value of line i of x. A u32 has 32 lines; any other is 0.
pub fn line_value(x: u32, i: u32) -> u32
    ensures { result ≡ line x i }
{
    if i < 32 { (x >> i) & 1 } else { 0 }
}

// The masked lines of the sample, packed into a number: the lowest masked line is bit 0.
// The lines of each nibble are packed, all at once. Then, from the highest byte down, its upper nibble comes down by the
// unmasked lines of its lower nibble, and what is above the byte by those of the byte.
pub fn gather(sample: u32, mask: u32) -> u32
    ensures { result ≡ gathered 32 sample mask }
{
    let lower = unmasked_in_lower(mask);
    let gaps = unmasked_in_bytes(mask);
    let nibbles = packed_nibbles(sample, mask);
    let mut packed: u32 = 0;
    for i in (0..4u32).rev() {
        let at = 8 * i;
        let low = nibbles & (15 << at);
        let high = (nibbles & (0xf0 << at)) >> ((lower >> at) & 15);
        packed = (packed >> ((gaps >> at) & 15)) + (low + high);
    }
    packed
}

// The bits of the value put on the masked lines: bit 0 on the lowest masked line. Every other line is 0.
// Only the masked lines are visited, the lowest first.
pub fn scatter(value: u32, mask: u32) -> u32
    ensures { result ≡ scattered 32 value mask }
{
    let mut spread: u32 = 0;
    let mut rest = value;
    let mut left = mask;
    while 0 < left {
        spread += (rest & 1) << left.trailing_zeros();
        rest >>= 1;
        left = drop_lowest(left);
    }
    spread
}

// The mask without its lowest masked line.
pub fn drop_lowest(mask: u32) -> u32
    ensures { result ≡ drop_lowest 32 mask }
{
    if mask == 0 {
        return 0;
    }
    mask & (mask - 1)
}

// How many lines below line i are masked.
pub fn rank(mask: u32, i: u32) -> u32
    ensures { result ≡ ones_in i mask }
{
    if i < 32 {
        (mask % (1 << i)).count_ones()
    } else {
        mask.count_ones()
    }
}
