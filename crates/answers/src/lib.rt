// How an answer is handed over in numbers, to C for one: its number returned, the rest through pointers.
// Promises: what is returned and what is left behind each pointer equal the definitions of the answer's parts.
// Rests on: buffer, lut and notice (the answers).
#![tactic(auto)]

ghost use Rattle.std.specs.Prelude.{◌≡◌};
ghost use Rattle.buffer.specs.Verdict.{verdict_number, verdict_place, outcome_number, outcome_place};
ghost use Rattle.lut.specs.Answer.{answer_number, answer_hit, answer_place};
ghost use Rattle.notice.specs.Notice.{noticed_number, noticed_which, noticed_place};

use buffer::{Outcome, Verdict};
use lut::Answer;
use notice::Noticed;

// A check: its place is 0 where nothing is refused.
pub fn hand_verdict(verdict: Verdict, place: &mut usize) -> u8
    ensures value { result ≡ verdict_number verdict }
    ensures place_after { place.new ≡ verdict_place verdict }
{
    match verdict {
        Verdict::Accepted => {
            *place = 0;
            0
        }
        Verdict::Refused(number, at) => {
            *place = at;
            number
        }
    }
}

// A writer: the length written, or the refusal's place.
pub fn hand_outcome(outcome: Outcome, place: &mut usize) -> u8
    ensures value { result ≡ outcome_number outcome }
    ensures place_after { place.new ≡ outcome_place outcome }
{
    match outcome {
        Outcome::Done(length) => {
            *place = length;
            0
        }
        Outcome::Refused(number, at) => {
            *place = at;
            number
        }
    }
}

// The model: 1 for a hit, 0 for a miss or a refusal, whose place is the count needed.
pub fn hand_answer(answer: Answer, hit: &mut u8, place: &mut usize) -> u8
    ensures value { result ≡ answer_number answer }
    ensures hit_after { hit.new ≡ answer_hit answer }
    ensures place_after { place.new ≡ answer_place answer }
{
    match answer {
        Answer::Hit => {
            *hit = 1;
            *place = 0;
            0
        }
        Answer::Miss => {
            *hit = 0;
            *place = 0;
            0
        }
        Answer::WrongCount(needed) => {
            *hit = 0;
            *place = needed;
            17
        }
    }
}

// The notice: which sheet is refused (1 the old one, 2 the new one, 0 neither), and the length written or the refusal's place.
pub fn hand_noticed(noticed: Noticed, which: &mut u8, place: &mut usize) -> u8
    ensures value { result ≡ noticed_number noticed }
    ensures which_after { which.new ≡ noticed_which noticed }
    ensures place_after { place.new ≡ noticed_place noticed }
{
    match noticed {
        Noticed::Done(length) => {
            *which = 0;
            *place = length;
            0
        }
        Noticed::Old(number, at) => {
            *which = 1;
            *place = at;
            number
        }
        Noticed::New(number, at) => {
            *which = 2;
            *place = at;
            number
        }
        Noticed::Short(needed) => {
            *which = 0;
            *place = needed;
            buffer::OUTPUT_TOO_SHORT
        }
    }
}
