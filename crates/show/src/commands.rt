// A stream as text: the offset, the five bytes of a command, and what it does.
ghost use Rattle.std.specs.Prelude.{◌<◌};

use command::{COMMAND_SIZE, SELECT};
use std::fmt::{self, Write};
use text::{Hex2, Hex8, Line, Padded};

// The lines of the first `end` bytes, which are whole commands.
pub fn put_commands(line: &mut Line, stream: &[u8], end: usize) {
    let commands = peek::prefix(stream, end).chunks(COMMAND_SIZE);
    for (i, command) in commands.enumerate() {
        // A line takes what there is room for, and never fails.
        let _ = put_command(line, command, COMMAND_SIZE * i);
    }
}

fn put_command(line: &mut Line, command: &[u8], offset: usize) -> fmt::Result {
    write!(line, "{}", Padded(offset))?;
    put_bytes(line, command);
    put_meaning(line, command)
}

// Most of the text is made here: by hand it takes half the time.
fn put_bytes(line: &mut Line, command: &[u8]) {
    let mut space: &[u8] = b"  ";
    for byte in command {
        line.put(space);
        line.put(&[digit(byte / 16), digit(byte % 16)]);
        space = b" ";
    }
}

// In capital hex.
fn digit(d: u8) -> u8
    requires { d < 16 }
{
    if d < 10 { b'0' + d } else { b'A' + (d - 10) }
}

fn put_meaning(line: &mut Line, command: &[u8]) -> fmt::Result {
    let number = peek::u32_at(command, 1);
    if peek::byte_at(command, 0) == SELECT {
        writeln!(line, "  select {}", Hex2(number))
    } else {
        writeln!(line, "    {}", Hex8(number))
    }
}
