// The examples that are run: each line says what is handed in and what comes of it [E9, E10, E12, E13].
use buffer::{Outcome, Verdict};
use std::io;

fn say_refused(rt: &impl Print, number: u8, place: usize) -> io::Result<()> {
    println!(rt; "{number} at {place}")
}

fn say_sheet(rt: &impl Print, what: &str, sheet: &[u8]) -> io::Result<()> {
    print!(rt; "{what}: ")?;
    match sheet::check(sheet) {
        Verdict::Accepted => println!(rt; "accepted"),
        Verdict::Refused(number, place) => say_refused(rt, number, place),
    }
}

// The reader's answer, and the sheet's length where there is one.
fn say_stream(rt: &impl Print, what: &str, stream: &[u8]) -> io::Result<()> {
    let mut room = [0u8; sheet::LONGEST];
    print!(rt; "{what}: ")?;
    match reader::read(stream, &mut room) {
        Outcome::Done(length) => println!(rt; "{length} bytes"),
        Outcome::Refused(number, place) => say_refused(rt, number, place),
    }
}

// One sum in slot 0, all of it 0 but the low byte of its first word, which has the final operation.
fn say_final(rt: &impl Print, what: &str, word: u8) -> io::Result<()> {
    let mut stream =
        *b"\x9E\x40\0\0\0\x9F\0\0\0\0\x9F\0\0\0\0\x9F\0\0\0\0\x9F\0\0\0\0\x9F\0\0\0\0\x9F\0\0\0\0";
    stream[6] = word;
    say_stream(rt, what, &stream)
}

// One edge in slot 0, all of it 0 but its last word, both of whose low bytes are this one: the table of lines 0 and 1.
fn say_table(rt: &impl Print, what: &str, byte: u8) -> io::Result<()> {
    let mut stream =
        *b"\x9E\x34\0\0\0\x9F\0\0\0\0\x9F\0\0\0\0\x9F\0\0\0\0\x9F\0\0\0\0\x9F\0\0\0\0\x9F\0\0\0\0\x9F\0\0\0\0\x9F\0\0\0\0";
    stream[41] = byte;
    stream[42] = byte;
    say_stream(rt, what, &stream)
}

pub(crate) fn say_examples(rt: &impl Print) -> io::Result<()> {
    // One range in slot 0 with a label of spaces.
    say_sheet(
        rt,
        "range 1..FFFFFFFF, mask FFFFFFFF",
        b"\x00\x01\x00        \x01\x00\x00\x00\xFF\xFF\xFF\xFF\xFF\xFF\xFF\xFF\x00\x00\x00",
    )?;
    say_stream(rt, "no bytes", b"")?;
    say_stream(rt, "1 byte", b"\x9E")?;
    say_stream(rt, "2 bytes", b"\x9E\x20")?;
    say_stream(rt, "3 bytes", b"\x9E\x20\x00")?;
    say_stream(rt, "4 bytes", b"\x9E\x20\x00\x00")?;
    say_stream(rt, "9F first", b"\x9F\x20\x00\x00\x00")?;
    say_stream(rt, "select 43", b"\x9E\x43\x00\x00\x00")?;
    say_stream(rt, "select 120", b"\x9E\x20\x01\x00\x00")?;
    say_stream(rt, "select 31 first", b"\x9E\x31\x00\x00\x00")?;
    say_final(rt, "final 000A", 0x0A)?;
    say_final(rt, "final 000C", 0x0C)?;
    say_final(rt, "final 0002", 0x02)?;
    say_final(rt, "final 0004", 0x04)?;
    say_table(rt, "edge AFAF", 0xAF)?;
    say_table(rt, "edge FFFF", 0xFF)
}
