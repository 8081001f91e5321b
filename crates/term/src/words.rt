// The chain words of a pattern.
ghost use Rattle.std.specs.Prelude.{◌≡◌, ◌/◌, ◌%◌, ◌^◌, ◌<◌};
ghost use Rattle.term.specs.Words.{nibble_table, chain_word, words_of};

use crate::Pattern;

impl Pattern {
    // The pattern of the lines from this one up.
    fn from_line(self, line: u32) -> Pattern
        requires { line < 32 }
        ensures { result ≡ record { target = self.target / 2 ^ line; mask = self.mask / 2 ^ line } }
    {
        Pattern {
            target: self.target >> line,
            mask: self.mask >> line,
        }
    }
}

// The lookup table of four lines: bit n is set where (n XOR target) AND mask is 0. An address is a sum over its lines, so the
// table is a product: for each line the bit of 0 where the line may be 0, and the bit of the line's weight where it may be 1.
fn nibble_table(p: Pattern) -> u32
    ensures { result ≡ nibble_table (p.target % 16) (p.mask % 16) }
{
    let t = p.target % 16;
    let m = p.mask % 16;
    let zeros = 15 - (t & m);
    let ones = 15 - (m ^ (t & m));
    let low = (zeros % 2 + ones % 2 * 2) * (zeros / 2 % 2 + ones / 2 % 2 * 4);
    let high = (zeros / 4 % 2 + ones / 4 % 2 * 16) * (zeros / 8 + ones / 8 * 256);
    low * high
}

// The chain word of the lowest eight lines.
fn chain_word(p: Pattern) -> u32
    ensures { result ≡ chain_word p.target p.mask }
{
    nibble_table(p.from_line(4)) * 65536 + nibble_table(p)
}

// The four chain words of a pattern in sending order.
pub(crate) fn term_words(p: Pattern) -> [u32; 4]
    ensures { result ≡ words_of p }
{
    [
        chain_word(p.from_line(24)),
        chain_word(p.from_line(16)),
        chain_word(p.from_line(8)),
        chain_word(p),
    ]
}
