// The reader: from commands back to the set-up sheet that they load.
// Promises: a stream's first fault by number and place, or the sheet and its length, or 12 and the bytes needed; a refusal writes nothing.
// Rests on: command (the stream's syntax), kinds (the way back), sheet (its layout), compiler (what is sent).
#![tactic(auto)]

ghost use Rattle.buffer.specs.Room.{Delivered};
ghost use Rattle.reader.specs.Back.{read_back};
ghost use Rattle.reader.specs.Meaning.{ReadSays};

use buffer::{Outcome, Verdict};
use keep::ROOM;
use walk::walk;
use write::put_sheet;

mod item;
mod keep;
mod walk;
mod write;

// The sheet that a stream sets up, written at the start of `out`, under the reader's own labels and with targets cut to
// their masks.
pub fn read(stream: &[u8], out: &mut [u8]) -> Outcome
    ensures delivered { Delivered (read_back stream.now) out.old result out.new }
    ensures read_says { ReadSays stream.now result out.new }
{
    let mut room = [0u8; ROOM];
    match walk(stream, &mut room) {
        Verdict::Refused(number, place) => Outcome::Refused(number, place),
        Verdict::Accepted => put_sheet(out, &room),
    }
}
