// The model: any four words, run on a sample.
ghost use Rattle.std.specs.Prelude.{◌≡◌};
ghost use Rattle.lut.specs.Answer.{RunNumbered};
ghost use Rattle.term.specs.Model.{word_hit, run_term};

// Whether both tables of a word answer 1 for the lowest eight lines.
fn word_hit(word: u32, sample: u32) -> bool
    ensures { result ≡ word_hit word sample }
{
    lut::answer_at(word % 65536, sample % 16) == 1
        && lut::answer_at(word / 65536, sample / 16 % 16) == 1
}

// A hit if none of the eight tables answers 0. All are asked: an early end would be mispredicted.
pub fn run_term(words: &[u32], sample: u32) -> lut::Answer
    ensures value { result ≡ run_term words.now sample }
    ensures run_numbered { RunNumbered 4 words.now result }
{
    if words.len() != 4 {
        return lut::Answer::WrongCount(4);
    }
    let mut hit = true;
    for (i, word) in words.iter().enumerate() {
        hit &= word_hit(*word, sample >> (24 - 8 * i));
    }
    lut::hit_or_miss(hit)
}
