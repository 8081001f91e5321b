// Commands read from a stream at an offset. Offsets past the end are taken: nothing stands there.
ghost use Rattle.std.specs.Prelude.{◌≡◌, drop};
ghost use Rattle.buffer.specs.Verdict.{VerdictNumbered};
ghost use Rattle.command.specs.Reading.{number, command_verdict};

use crate::COMMAND_SIZE;
use buffer::Verdict;

// The refusal numbers of a command.
const UNFINISHED: u8 = 13;

const NOT_DUE: u8 = 14;

// Whether a command with this opcode stands at `at`.
pub fn check_command(stream: &[u8], at: usize, op: u8) -> Verdict
    ensures value { result ≡ command_verdict op at (drop at stream.now) }
    ensures verdict_numbered { VerdictNumbered (command_verdict op at (drop at stream.now)) result }
{
    let rest = peek::suffix(stream, at);
    if rest.len() < COMMAND_SIZE {
        return Verdict::Refused(UNFINISHED, at);
    }
    if peek::byte_at(rest, 0) != op {
        return Verdict::Refused(NOT_DUE, at);
    }
    Verdict::Accepted
}

// The number of the command at `at`.
pub fn number_at(stream: &[u8], at: usize) -> u32
    ensures { result ≡ number (drop at stream.now) }
{
    peek::u32_at(peek::suffix(stream, at), 1)
}
