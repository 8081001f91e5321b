// The field of a state that is too big for its place, beside the most that fits.
use crate::values::first_outside;
use state::{FLAG_LAST, NUMBER_LAST, STATE_LAST};
use std::fmt::{self, Write};
use text::{ELSE_STATE, FLAGS, Line};

// The first such field.
pub(crate) fn put_state(line: &mut Line, description: &[u8]) -> fmt::Result {
    let number = peek::u32_at(description, 0);
    let branch = peek::byte_at(description, ELSE_STATE);
    if NUMBER_LAST < number {
        return write!(line, "number {number}, where at most {NUMBER_LAST} fits");
    }
    if STATE_LAST < branch {
        return write!(line, "else state {branch}, where at most {STATE_LAST} fits");
    }
    put_flag(line, peek::suffix(description, FLAGS))
}

// The first flag that is neither 0 nor 1.
fn put_flag(line: &mut Line, flags: &[u8]) -> fmt::Result {
    let i = first_outside(flags, 0, FLAG_LAST);
    write!(
        line,
        "flag {} is {}, where a flag is 0 or 1",
        text::flag_name(i),
        peek::byte_at(flags, i)
    )
}
