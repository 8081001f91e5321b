// Where text goes, and the values that are put into it.
ghost use Rattle.std.specs.Prelude.{◌≡◌, ◌<◌};
ghost use Rattle.buffer.specs.Room.{Put};

use std::fmt::{self, Write};

// Text at the start of lent room. A piece of it that does not fit is left out whole.
#[derive(Drop)]
pub struct Line<'a> {
    room: &'a mut [u8],
    // How many bytes it has.
    length: usize,
}

impl<'a> Line<'a> {
    // No text yet.
    pub fn new(room: &'a mut [u8]) -> Line<'a>
        ensures { (result.length ≡ 0) × (result.room.now ≡ room.old) }
    {
        Line { room, length: 0 }
    }

    pub fn len(&self) -> usize
        ensures { result ≡ self.now.length }
    {
        self.length
    }

    // A piece behind the text, which is left out where it does not fit.
    pub fn put(&mut self, piece: &[u8])
        ensures { Put self.old.length piece.now self.old.room.now self.new.room.now self.new.length }
    {
        let Line { room, length } = self;
        *length = buffer::put_at(room, *length, piece);
    }
}

impl fmt::Write for Line<'_> {
    fn write_str(&mut self, s: &str) -> fmt::Result {
        self.put(s.as_bytes());
        Ok(())
    }
}

// Longer than any label, and than any refusal in words.
const PIECE: usize = 128;

// Bytes as people see them: one that is not printable ASCII is a question mark. Up to PIECE of them are one piece.
#[derive(Clone, Copy)]
pub struct Plain<'a>(pub &'a [u8]);

impl fmt::Display for Plain<'_> {
    fn fmt<W: Write>(&self, f: &mut fmt::Formatter<W>) -> fmt::Result {
        if PIECE < self.0.len() {
            return put_long(self.0, f);
        }
        let mut room = [0u8; PIECE];
        for (to, byte) in room.iter_mut().zip(self.0) {
            *to = shown(*byte);
        }
        f.write_str(ascii(&room[..self.0.len()]))
    }
}

// Bytes that are too many for one piece: each by itself.
fn put_long<W: Write>(bytes: &[u8], f: &mut fmt::Formatter<W>) -> fmt::Result {
    for byte in bytes {
        f.write_char(char::from(shown(*byte)))?;
    }
    Ok(())
}

fn shown(byte: u8) -> u8 {
    if (b' '..=b'~').contains(&byte) {
        byte
    } else {
        b'?'
    }
}

// Bytes that are all ASCII, as text.
fn ascii(bytes: &[u8]) -> &str {
    str::from_utf8(bytes).unwrap_or("")
}

// The digits of 32 lines in hex.
const DIGITS: usize = 8;

fn hex_digit(d: u8) -> u8
    requires { d < 16 }
{
    if d < 10 { b'0' + d } else { b'A' + (d - 10) }
}

// All digits of a number in capital hex.
fn hex(n: u32) -> [u8; DIGITS] {
    let mut digits = [0; DIGITS];
    let mut rest = n;
    for digit in digits.iter_mut().rev() {
        *digit = hex_digit((rest % 16) as u8);
        rest /= 16;
    }
    digits
}

// A number in capital hex, in one piece: two digits, or more where it takes more.
#[derive(Clone, Copy)]
pub struct Hex2(pub u32);

impl fmt::Display for Hex2 {
    fn fmt<W: Write>(&self, f: &mut fmt::Formatter<W>) -> fmt::Result {
        let zeros = self.0.leading_zeros() as usize / 4;
        f.write_str(ascii(&hex(self.0)[zeros.min(DIGITS - 2)..]))
    }
}

// A number in eight capital hex digits, in one piece.
#[derive(Clone, Copy)]
pub struct Hex8(pub u32);

impl fmt::Display for Hex8 {
    fn fmt<W: Write>(&self, f: &mut fmt::Formatter<W>) -> fmt::Result {
        f.write_str(ascii(&hex(self.0)))
    }
}

// A number in decimal, four places wide where that is enough: the spaces before it are a piece of their own.
#[derive(Clone, Copy)]
pub struct Padded(pub usize);

impl fmt::Display for Padded {
    fn fmt<W: Write>(&self, f: &mut fmt::Formatter<W>) -> fmt::Result {
        f.write_str(match self.0 {
            0..=9 => "   ",
            10..=99 => "  ",
            100..=999 => " ",
            _ => "",
        })?;
        write!(f, "{}", self.0)
    }
}

#[cfg(test)]
mod tests {
    use super::*;
    use std::process::Abort;

    // The first `n` of a text that has each byte go into `room` bytes: `stand` of them stand there, and nothing behind.
    fn assert_put(rt: &impl Abort, n: usize, room: usize, stand: usize) {
        let mut text = [0u8; 256];
        for (i, byte) in text.iter_mut().enumerate() {
            *byte = byte_at(i);
        }
        let mut lent = [0u8; 256];
        let mut line = Line::new(&mut lent[..room.min(256)]);
        let _ = write!(line, "{}", Plain(&text[..n.min(256)]));
        assert_eq!(rt; line.len(), stand, "{n} bytes in {room}");
        for (i, byte) in lent.iter().enumerate() {
            let expected = if i < stand { seen(byte_at(i)) } else { 0 };
            assert_eq!(rt; *byte, expected, "byte {i} of {n} in {room}");
        }
    }

    fn byte_at(i: usize) -> u8 {
        (i % 256 * 37 % 256) as u8
    }

    fn seen(value: u8) -> u8 {
        match value {
            0x20..=0x7e => value,
            _ => 0x3f,
        }
    }

    #[test]
    fn a_text_of_any_length_is_put(rt: HostRuntime) {
        for n in [0, 1, 127, 128, 129, 255, 256] {
            assert_put(&rt, n, n, n);
            assert_put(&rt, n, 256, n);
        }
    }

    #[test]
    fn a_text_of_one_piece_is_left_out_whole(rt: HostRuntime) {
        assert_put(&rt, 128, 127, 0);
    }

    #[test]
    fn a_longer_text_is_put_as_far_as_there_is_room(rt: HostRuntime) {
        assert_put(&rt, 129, 5, 5);
        assert_put(&rt, 256, 255, 255);
    }
}
