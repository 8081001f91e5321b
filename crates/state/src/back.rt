// The way back: the state that writes a given word.
ghost use Rattle.std.specs.Prelude.{◌≡◌};
ghost use Rattle.lut.specs.Back.{ReadNumbered};
ghost use Rattle.state.specs.Fields.{Accepted};
ghost use Rattle.state.specs.Words.{words_of};
ghost use Rattle.state.specs.Back.{bits_from, state_of, read_state, ReadMeans, read_number, read_place};

use crate::State;

// The flags of a word.
#[tactic(auto, unfolding(crate::specs::Back::bits_from))]
fn flags_of(w: u32) -> [u8; 8]
    ensures { result ≡ bits_from 8 24 w }
{
    std::array::from_fn(|i| lines::line_value(w, 24 + i as u32) as u8)
}

// The fields of a word.
#[tactic(auto, unfolding(crate::specs::Back::state_of))]
fn state_of(w: u32) -> State
    ensures { result ≡ state_of w }
{
    State {
        number: w % 0x10_0000,
        branch: (w / 0x10_0000 % 16) as u8,
        flags: flags_of(w),
    }
}

// The state that writes these words, if one does: every word is some state's, so only their count can be wrong.
pub fn read_state(words: &[u32]) -> Option<State>
    ensures value { result ≡ read_state words.now }
    ensures meaning { ReadMeans words.now result }
    ensures read_numbered { ReadNumbered Accepted words_of words.now (read_number result) (read_place result) }
{
    match words {
        [word] => Some(state_of(*word)),
        _ => None,
    }
}
