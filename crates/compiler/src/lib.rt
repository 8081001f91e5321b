// The compiler: from a set-up sheet to the commands that load its chains, by rising address.
// Promises: a sheet's first fault by number and place, or its commands and their length, or 12 and the bytes needed; a refusal writes nothing.
// Rests on: sheet (its verdict and where its sections lie), kinds (words, addresses), command (chains), buffer (lent room).
#![tactic(auto)]

ghost use Rattle.std.specs.Prelude.{◌≡◌};
ghost use Rattle.buffer.specs.Room.{Delivered};
ghost use Rattle.compiler.specs.Stream.{compiled, longest_stream};

use buffer::Outcome;
use stream::Found;

mod items;
mod stream;

pub use items::item_size;

// The most bytes that the commands of a sheet take up: a select for each chain and a load for each word.
pub const LONGEST: usize = command::COMMAND_SIZE * (kinds::ALL_CHAINS + kinds::ALL_WORDS);

// The same as a call, whose contract holds the constant to its definition.
pub fn longest_stream() -> usize
    ensures { result ≡ longest_stream }
{
    LONGEST
}

// The commands of a sheet, written at the start of `out`.
pub fn compile(sheet: &[u8], out: &mut [u8]) -> Outcome
    ensures { Delivered (compiled sheet.now) out.old result out.new }
{
    let laid = sheet::judge_parts(sheet);
    if laid.refusal != 0 {
        return Outcome::Refused(laid.refusal, laid.place);
    }
    Found { sheet, laid }.put(out)
}
