// The way back: the operation codes that write given chain words, if some do.
ghost use Rattle.std.specs.Prelude.{◌≡◌};
ghost use Rattle.lut.specs.Back.{ReadNumbered};
ghost use Rattle.sum.specs.Operation.{Accepted};
ghost use Rattle.sum.specs.Words.{words_of};
ghost use Rattle.sum.specs.Back.{codes_of, read_sum, ReadMeans, read_number, read_place};

use crate::operation::{FINAL, MID, PAIR, codes_accepted, op_code};

// The codes of six words; 10 where a half word is none of its table's.
#[tactic(auto, unfolding(crate::specs::Back::codes_of))]
fn codes_of(w: &[u32; 6]) -> [u8; 11]
    ensures { result ≡ codes_of w.now }
{
    [
        op_code(&PAIR, w[5] % 65536),
        op_code(&PAIR, w[5] / 65536),
        op_code(&PAIR, w[4] % 65536),
        op_code(&PAIR, w[4] / 65536),
        op_code(&PAIR, w[3] % 65536),
        op_code(&PAIR, w[3] / 65536),
        op_code(&PAIR, w[2] % 65536),
        op_code(&PAIR, w[2] / 65536),
        op_code(&MID, w[1] % 65536),
        op_code(&MID, w[1] / 65536),
        op_code(&FINAL, w[0]),
    ]
}

// The operation codes that write these words, if there are any.
pub fn read_sum(words: &[u32]) -> Option<[u8; 11]>
    ensures value { result ≡ read_sum words.now }
    ensures meaning { ReadMeans words.now result }
    ensures read_numbered { ReadNumbered Accepted words_of words.now (read_number result) (read_place result) }
{
    let ops = codes_of(words.try_into().ok()?);
    codes_accepted(&ops).then_some(ops)
}
