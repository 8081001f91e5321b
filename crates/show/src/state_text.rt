// A state as text: its number, its else state, and the flags that are set.
use std::fmt::{self, Write};
use text::{ELSE_STATE, FLAGS, Hex8, Line};

pub(crate) fn put_state(line: &mut Line, description: &[u8]) -> fmt::Result {
    let number = Hex8(peek::u32_at(description, 0));
    let branch = peek::byte_at(description, ELSE_STATE);
    write!(line, " number {number} else {branch} flags")?;
    put_flags(line, peek::suffix(description, FLAGS))
}

// The flags that are set, by name.
fn put_flags(line: &mut Line, flags: &[u8]) -> fmt::Result {
    if flags.iter().all(|flag| *flag == 0) {
        return line.write_str(" none");
    }
    for (i, flag) in flags.iter().enumerate() {
        if *flag != 0 {
            write!(line, " {}", text::flag_name(i))?;
        }
    }
    Ok(())
}
