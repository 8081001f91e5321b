// The model: chain words run on a sample.
ghost use Rattle.std.specs.Prelude.{◌≡◌, ℕ, ◌+◌, ◌-◌, ◌/◌, ◌%◌, ◌<◌, length, slice_index};
ghost use Rattle.lines.specs.Line.{line};
ghost use Rattle.lut.specs.Answer.{RunNumbered};
ghost use Rattle.lut.specs.Table.{answer_at, high, low};
ghost use Rattle.range.specs.Model.{table_at, chain_carry, run_range};

use lut::Answer;

// The table of line i of a chain of sixteen words.
pub(crate) fn table_at(chain: &[u32], i: usize) -> u32
    requires chain { length chain.now ≡ 16 }
    requires line { i < 32 }
    ensures { result ≡ table_at chain.now i }
{
    let word = chain[15 - i / 2];
    if i % 2 == 1 {
        word >> 16
    } else {
        word & 0xFFFF
    }
}

// What the tables of eight words answer at 0 and at 1, two bits for each line: of the low tables in the low half, of the
// high tables in the high half.
fn packed(words: &[u32]) -> u32
    requires { length words.now ≡ 8 }
    ensures low_tables { (j : ℕ) → j < 16 → line result j ≡ answer_at (low (slice_index words.now (7 - j / 2))) (j % 2) }
    ensures high_tables { (j : ℕ) → j < 16 → line result (j + 16) ≡ answer_at (high (slice_index words.now (7 - j / 2))) (j % 2) }
{
    let mut r: u32 = 0;
    for word in words {
        r = r * 4 + (*word & 0x3_0003);
    }
    r
}

// The carry that leaves line 31 of a chain of sixteen words: the value of the highest line whose table answers 0. Such
// lines that are 1 and those that are 0 are set apart, and the greater number has the highest one.
fn chain_carry(chain: &[u32], sample: u32) -> u32
    requires { length chain.now ≡ 16 }
    ensures { result ≡ chain_carry chain.now sample }
{
    let (upper_half, lower_half) = chain.split_at(8);
    let above = packed(upper_half);
    let below = packed(lower_half);
    let even = above % 65536 * 65536 + below % 65536;
    let odd = above / 65536 * 65536 + below / 65536;
    let at_zero = (even & 0x5555_5555) | ((odd << 1) & 0xAAAA_AAAA);
    let at_one = ((even >> 1) & 0x5555_5555) | (odd & 0xAAAA_AAAA);
    let ones = sample ^ (sample & at_one);
    let zeros = 0xFFFF_FFFF ^ (sample | at_zero);
    u32::from(zeros < ones)
}

// The model, on any lent words: the lower chain's sixteen, then the upper chain's.
pub fn run_range(words: &[u32], sample: u32) -> Answer
    ensures value { result ≡ run_range words.now sample }
    ensures run_numbered { RunNumbered 32 words.now result }
{
    if words.len() != 32 {
        return Answer::WrongCount(32);
    }
    let (lower_chain, upper_chain) = words.split_at(16);
    let lower = chain_carry(lower_chain, sample);
    let upper = chain_carry(upper_chain, sample);
    lut::hit_or_miss((lower == 1) & (upper == 0))
}
