// What tells two sums apart, of any two lists of bytes and in numbers, as it is handed to C.
ghost use Rattle.std.specs.Prelude.{◌≡◌};
ghost use Rattle.sum_telling.specs.Numbers.{is_sum, sum_told, ToldMeans};

use crate::Told;
use crate::finals::NONE;
use crate::telling::least_pattern;

// Refusal 10: bytes that are not eleven operation codes.
const NO_SUM: Told = Told {
    number: 10,
    sources: 0,
};

// How many operations a sum has.
const OPERATIONS: usize = 11;

// Whether bytes are eleven operation codes.
#[tactic(auto, using(crate::proofs::Handed::is_sum_by_fault))]
fn is_sum(ops: &[u8]) -> bool
    ensures { result ≡ is_sum ops.now }
{
    ops.len() == OPERATIONS && sum::fault(ops) == 0
}

// 1 and the least pattern that tells the two apart, 0 where none does, 10 where one of them is no sum.
pub fn told_of(old: &[u8], new: &[u8]) -> Told
    ensures value { result ≡ sum_told old.now new.now }
    ensures meaning { ToldMeans old.now new.now result }
{
    if !is_sum(old) || !is_sum(new) {
        return NO_SUM;
    }
    let v = sum::words_of(sum::from_bytes(old));
    let w = sum::words_of(sum::from_bytes(new));
    let least = least_pattern(v, w);
    if least < NONE {
        Told {
            number: 1,
            sources: least as u16,
        }
    } else {
        Told {
            number: 0,
            sources: 0,
        }
    }
}
