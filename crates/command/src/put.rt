// Commands and chains, written at the start of lent room.
ghost use Rattle.buffer.specs.Room.{bytes, Delivered};
ghost use Rattle.command.specs.Command.{command, chain};

use crate::{COMMAND_SIZE, LOAD, SELECT};
use buffer::{OUTPUT_TOO_SHORT, Outcome};

// One command: the opcode, then the number, least byte first.
fn put_command(out: &mut [u8], op: u8, n: u32) -> Outcome
    ensures { Delivered (bytes (command op n)) out.old result out.new }
{
    if out.len() < COMMAND_SIZE {
        return Outcome::Refused(OUTPUT_TOO_SHORT, COMMAND_SIZE);
    }
    out[0] = op;
    buffer::put_u32(&mut out[1..], n);
    Outcome::Done(COMMAND_SIZE)
}

// A chain: the select command with the address, then a load command for each word, each into the room behind the one before.
pub fn put_chain(out: &mut [u8], address: u32, words: &[u32]) -> Outcome
    ensures { Delivered (bytes (chain address words.now)) out.old result out.new }
{
    let needed = COMMAND_SIZE + COMMAND_SIZE * words.len();
    if out.len() < needed {
        return Outcome::Refused(OUTPUT_TOO_SHORT, needed);
    }
    put_command(out, SELECT, address);
    let mut at = COMMAND_SIZE;
    let mut i: usize = 0;
    while i < words.len() {
        put_command(&mut out[at..], LOAD, words[i]);
        at += COMMAND_SIZE;
        i += 1;
    }
    Outcome::Done(needed)
}
