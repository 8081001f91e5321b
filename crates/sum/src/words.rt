// The chain words of a sum.
ghost use Rattle.std.specs.Prelude.{◌≡◌};
ghost use Rattle.sum.specs.Words.{joined, words_of};

use crate::operation::{FINAL, MID, PAIR, op_word};

// A word of two operations of one stage.
fn joined(table: &[u16; 10], high: u8, low: u8) -> u32
    ensures { result ≡ joined table.now high low }
{
    op_word(table, high) * 65536 + op_word(table, low)
}

// The six words of eleven operations; which operation stands in which half is a table of the rules [W14].
#[tactic(auto, unfolding(crate::specs::Words::words_of))]
pub fn words_of(b: [u8; 11]) -> [u32; 6]
    ensures { result ≡ words_of b }
{
    [
        op_word(&FINAL, b[10]),
        joined(&MID, b[9], b[8]),
        joined(&PAIR, b[7], b[6]),
        joined(&PAIR, b[5], b[4]),
        joined(&PAIR, b[3], b[2]),
        joined(&PAIR, b[1], b[0]),
    ]
}
