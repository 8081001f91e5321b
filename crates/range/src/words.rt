// The chain words of a range.
ghost use Rattle.std.specs.Prelude.{◌≡◌, ◌%◌, ◌^◌, ◌<◌, count_ones};
ghost use Rattle.range.specs.Words.{line_table, pair_word, chain_words, range_words};

use crate::Range;

// A chain that is to be written: the masked lines, and the chain's value spread over them.
#[derive(Clone, Copy)]
struct Spread {
    mask: u32,
    lines: u32,
}

impl Spread {
    // The table of line i: FFFF for an unmasked line, AAAA or 5555 for a masked line by its bit of the chain's value.
    fn line_table(self, i: u32) -> u32
        ensures { result ≡ line_table self.mask self.lines i }
    {
        if lines::line_value(self.mask, i) == 0 {
            0xFFFF
        } else if lines::line_value(self.lines, i) == 0 {
            0xAAAA
        } else {
            0x5555
        }
    }

    // The word of lines 2 p + 1 and 2 p.
    fn pair_word(self, p: u32) -> u32
        requires { p < 16 }
        ensures { result ≡ pair_word self.mask self.lines p }
    {
        (self.line_table(p * 2 + 1) << 16) | self.line_table(p * 2)
    }
}

// The sixteen words of a chain, from the highest line down.
fn chain_words(mask: u32, value: u32) -> [u32; 16]
    ensures { result ≡ chain_words mask value }
{
    let spread = Spread {
        mask,
        lines: lines::scatter(value, mask),
    };
    std::array::from_fn(|k| spread.pair_word(15 - k as u32))
}

// The lowest k bits of x, k being the ones in the mask.
pub(crate) fn low_bits(x: u32, mask: u32) -> u32
    ensures { result ≡ x % 2 ^ count_ones mask }
{
    (u64::from(x) % (1u64 << mask.count_ones())) as u32
}

// The two chains of a range, the lower one first.
pub(crate) fn range_words(r: Range) -> [[u32; 16]; 2]
    ensures { result ≡ range_words r.lower r.upper r.mask }
{
    let below = r.lower.wrapping_sub(1);
    [
        chain_words(r.mask, low_bits(!below, r.mask)),
        chain_words(r.mask, low_bits(!r.upper, r.mask)),
    ]
}
