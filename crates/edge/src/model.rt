// The model: any eight words, run on an earlier and a later sample.
ghost use Rattle.std.specs.Prelude.{◌≡◌, ◌||◌, ℕ, ◌+◌, ◌*◌, ◌/◌, ◌%◌, ◌^◌, ◌<◌, eqb};
ghost use Rattle.lut.specs.Answer.{RunNumbered};
ghost use Rattle.lut.specs.Table.{answer_at, high, low, one_if};
ghost use Rattle.edge.specs.Model.{run_edge};

// Where eight tables are asked, a nibble for each, all at once: of each four lines the lower two, earlier and later.
#[tactic(auto, using(crate::proofs::Nibbles::at_once))]
fn addresses(earlier: u32, later: u32) -> u32
    ensures { (k : ℕ) → k < 8 → result / 2 ^ (4 * k) % 16 ≡ earlier / 2 ^ (4 * k) % 4 * 4 + later / 2 ^ (4 * k) % 4 }
{
    (earlier & 0x3333_3333) * 4 + (later & 0x3333_3333)
}

// A number whose lowest bit says whether one of a word's two tables answers 1, each asked at the lowest nibble of its
// addresses. The other bits say nothing: to take the one out of each answer would cost more than to ask.
#[tactic(auto, using(crate::proofs::WordLaws::word_bit))]
fn word_answers(word: u32, upper: u32, lower: u32) -> u32
    ensures { result % 2 ≡ one_if (eqb (answer_at (high word) (upper % 16)) 1 || eqb (answer_at (low word) (lower % 16)) 1) }
{
    let above = (word / 65536) >> (upper % 16);
    let below = (word % 65536) >> (lower % 16);
    above | below
}

// The model: a hit when any table of the eight words answers 1. All are asked: an early end would be mispredicted.
#[tactic(auto, using(crate::proofs::WordLaws::ask_end))]
pub fn run_edge(words: &[u32], earlier: u32, later: u32) -> lut::Answer
    ensures value { result ≡ run_edge words.now earlier later }
    ensures run_numbered { RunNumbered 8 words.now result }
{
    if words.len() != 8 {
        return lut::Answer::WrongCount(8);
    }
    let upper = addresses(earlier / 4, later / 4);
    let lower = addresses(earlier, later);
    let mut any: u32 = 0;
    for (i, word) in words.iter().enumerate() {
        let at = 28 - 4 * i;
        any |= word_answers(*word, upper >> at, lower >> at);
    }
    lut::hit_or_miss(any % 2 == 1)
}
