// The model: any six words, run on sixteen sources.
ghost use Rattle.std.specs.Prelude.{◌≡◌, ◌+◌, ◌*◌, ◌<◌, length};
ghost use Rattle.lines.specs.Line.{line};
ghost use Rattle.lut.specs.Answer.{RunNumbered};
ghost use Rattle.lut.specs.Table.{answer_at, high, low};
ghost use Rattle.sum.specs.Model.{first_pairs, inputs_of, sum_hit, run_sum};

// Lines 0, 2, 3 and 4 of five, each as the lowest bit of a byte: the sources A of the pairs ab, c, d and e [M6]. Line 1,
// the source B of ab, is two bits above its A. The product has each line at its byte, and what lies between is masked out.
#[tactic(auto, using(crate::proofs::Sources::lower_sources_law))]
fn lower_sources(five: u32) -> u32
    requires { five < 32 }
    ensures { result ≡ line five 0 + 4 * line five 1 + 256 * line five 2 + 65536 * line five 3 + 16777216 * line five 4 }
{
    (((five & 0x1D) * 0x10_2041) & 0x0101_0101) + 2 * (five & 2)
}

// Lines 0, 2 and 4 of five, each two bits above the lowest of a byte: the sources B of the pairs c, d and e.
#[tactic(auto, using(crate::proofs::Sources::upper_sources_law))]
fn upper_sources(five: u32) -> u32
    requires { five < 32 }
    ensures { result ≡ 1024 * line five 0 + 262144 * line five 2 + 67108864 * line five 4 }
{
    ((five & 0x15) * 0x41_0400) & 0x0404_0400
}

// Where the tables of the pairs ab, c, d and e are asked, a byte for each: source A drives the inputs 0 and 1, source B
// the inputs 2 and 3. A table in the high half of its word is 16 bits up. All four at once, which is faster than line by
// line.
fn pair_addresses(sources: u32) -> u32
    ensures { result ≡ (3 * line sources 0 + 12 * line sources 1) + 256 * (16 + (3 * line sources 2 + 12 * line sources 10)) + 65536 * (3 * line sources 3 + 12 * line sources 12) + 16777216 * (16 + (3 * line sources 4 + 12 * line sources 14)) }
{
    let lower = lower_sources(sources % 32);
    3 * (lower + upper_sources(sources / 1024 % 32)) + 0x1000_1000
}

// What both tables of a word answer, as a number of two bits: bit 0 is the low half's at address i, bit 1 the high half's at j.
#[tactic(auto, using(crate::proofs::Sources::both_law))]
fn both_at(word: u32, i: u32, j: u32) -> u32
    requires { (i < 16) × (j < 16) }
    ensures { (result ≡ answer_at (low word) i + 2 * answer_at (high word) j) × (result < 4) }
{
    ((word >> i) & 1) + ((word >> (15 + j)) & 2)
}

// The inputs of mid1: the answers of the pairs ab, c, d and e, whose tables are the two words' halves.
#[tactic(auto, using(crate::proofs::Sources::inputs_at_law))]
fn mid_inputs(first: u32, second: u32, sources: u32) -> u32
    ensures { (result ≡ inputs_of first_pairs first second sources) × (result < 16) }
{
    let at = pair_addresses(sources);
    let ab = lines::line_value(first, at % 32);
    let c = lines::line_value(first, at / 256 % 32);
    let d = lines::line_value(second, at / 65536 % 32);
    let e = lines::line_value(second, at / 16777216 % 32);
    ab + 2 * c + 4 * d + 8 * e
}

// Whether final answers 1: mid1 is the low half of the second word, mid2 its high half. The sources of mid2's pairs, fg,
// h, i and j, lie as those of ab, c, d and e do: lines 5 to 9 as 0 to 4, lines 11 to 15 as 10 to 14 [M6].
#[tactic(auto, using(crate::proofs::Sources::last_as_first), unfolding(crate::specs::Model::sum_hit))]
fn sum_hit(words: &[u32], sources: u32) -> bool
    requires { length words.now ≡ 6 }
    ensures { result ≡ sum_hit words.now sources }
{
    let first = mid_inputs(words[5], words[4], sources);
    let down = sources / 32 % 32 + sources / 2048 * 1024;
    let last = mid_inputs(words[3], words[2], down);
    let mids = both_at(words[1], first, last);
    lut::answer_at(words[0] % 65536, mids) == 1
}

// The model: a hit when final answers 1. The sources are bits 0 to 15.
pub fn run_sum(words: &[u32], sources: u16) -> lut::Answer
    ensures value { result ≡ run_sum words.now sources }
    ensures run_numbered { RunNumbered 6 words.now result }
{
    if words.len() != 6 {
        return lut::Answer::WrongCount(6);
    }
    lut::hit_or_miss(sum_hit(words, u32::from(sources)))
}
