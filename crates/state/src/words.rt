// The one chain word of a state.
ghost use Rattle.std.specs.Prelude.{◌≡◌, ◌%◌, ◌<◌};
ghost use Rattle.state.specs.Words.{bits_of, word_of};

use crate::State;

// Eight flags as the bits of a number, the first the lowest.
#[tactic(auto, using(crate::proofs::Bits::above), unfolding(lines::specs::Line::from_lines))]
fn bits_of(flags: [u8; 8]) -> u32
    ensures { (result ≡ bits_of flags) × (result < 256) }
{
    let mut bits: u32 = 0;
    for i in (0..8).rev() {
        bits = bits * 2 + u32::from(flags[i] % 2);
    }
    bits
}

// The word of a state.
#[tactic(auto, unfolding(crate::specs::Words::word_of))]
pub(crate) fn word_of(s: State) -> u32
    ensures { result ≡ word_of s }
{
    let bits = bits_of(s.flags);
    s.number % 0x10_0000 + u32::from(s.branch % 16) * 0x10_0000 + bits * 0x100_0000
}
