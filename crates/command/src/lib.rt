// The stream's syntax: one command, one chain, written and read.
// Promises: a writer answers the commands' length, or 12; a reader gives what stands there, and the first of 13 and 14.
// Rests on: peek (bytes), buffer (lent room, refusals).
#![tactic(auto)]

mod put;
mod read;

pub use put::put_chain;
pub use read::{check_command, number_at};

// The opcodes.
pub const SELECT: u8 = 0x9E;

pub const LOAD: u8 = 0x9F;

// How many bytes a command has.
pub const COMMAND_SIZE: usize = 5;
