// One case of the file: a sheet after its length, and the second program's stream after its length. Lengths have two
// bytes, the least first.
use buffer::Outcome;

// What came of a case.
#[derive(Clone, Copy)]
pub(crate) enum Case {
    Agrees,
    Differs,
    // The end mark stands where the next case would begin.
    End,
    // The file ends inside a case, or without the end mark.
    Cut,
}

// The length that no sheet has, after the last case.
const END_MARK: usize = 0xFFFF;

// The most bytes of a sheet or of a stream in the file.
const MOST: usize = 4096;

// What is left of the file.
#[derive(Drop)]
pub(crate) struct Rest<'a>(pub &'a [u8]);

impl<'a> Rest<'a> {
    // The next n bytes, which are then behind; nothing where fewer are left.
    fn bytes(&mut self, n: usize) -> Option<&'a [u8]> {
        let (bytes, rest) = self.0.split_at_checked(n)?;
        self.0 = rest;
        Some(bytes)
    }

    fn length(&mut self) -> Option<usize> {
        match self.bytes(2)? {
            [low, high] => Some(usize::from(u16::from_le_bytes([*low, *high]))),
            _ => None,
        }
    }

    // A sheet or a stream of n bytes, which are at most MOST.
    fn part(&mut self, n: usize) -> Option<&'a [u8]> {
        if n <= MOST { self.bytes(n) } else { None }
    }

    // Whether the sheet of n bytes and the stream behind it agree; nothing where the file ends inside them.
    fn agreement(&mut self, n: usize) -> Option<bool> {
        let sheet = self.part(n)?;
        let m = self.length()?;
        let stream = self.part(m)?;
        Some(agrees(sheet, stream))
    }

    // Compares the next case, which is then behind.
    pub(crate) fn compare_next(&mut self) -> Case {
        let Some(n) = self.length() else {
            return Case::Cut;
        };
        if n == END_MARK {
            return Case::End;
        }
        match self.agreement(n) {
            Some(true) => Case::Agrees,
            Some(false) => Case::Differs,
            None => Case::Cut,
        }
    }
}

// Whether the compiler writes this stream for this sheet.
fn agrees(sheet: &[u8], stream: &[u8]) -> bool {
    let mut out = [0u8; compiler::LONGEST];
    match compiler::compile(sheet, &mut out) {
        Outcome::Done(length) => out.get(..length).is_some_and(|written| written == stream),
        Outcome::Refused(_, _) => false,
    }
}
