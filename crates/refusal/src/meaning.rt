// What a refusal's number means.
ghost use Rattle.std.specs.Prelude.{◌≡◌, ℕ, ◌+◌, ◌*◌, ◌≤◌, ◌<◌, length, take, drop};
ghost use Rattle.buffer.specs.Room.{Wrote};
ghost use Rattle.refusal.specs.Words.{meaning_of};

use crate::put::put;

// How many numbers have a row: all up to the last refusal's, those between that no refusal has too.
const ROWS: usize = 25;

const WIDTH: usize = 48;

// A row for each number, each as wide as the longest.
const MEANINGS: [u8; ROWS * WIDTH] = *b"\
    not a refusal's number                          \
    count or record incomplete                      \
    count above the section's most                  \
    slot too big                                    \
    slot not rising                                 \
    bad label byte                                  \
    lower bound is 0                                \
    lower bound above upper                         \
    upper bound too big for the mask's lines        \
    rise, fall and neither together on a line       \
    operation above 9                               \
    bytes left over                                 \
    output too short (the place is what is needed)  \
    stream ends inside a command or item            \
    opcode other than the one due                   \
    address unknown, not rising, or not the one due \
    words that no accepted description writes       \
    wrong word count (the place is the count needed)\
    a state's field too big for its place           \
    label the same as an earlier one of its section \
    too many samples (the place is the most)        \
    not a refusal's number                          \
    not a refusal's number                          \
    not a refusal's number                          \
    state above 15, or count not below its number   ";

// How much of each row is text.
const LENGTHS: [usize; ROWS] = [
    22, 26, 30, 12, 15, 14, 16, 23, 40, 41, 17, 15, 46, 36, 29, 47, 41, 48, 37, 47, 40, 22, 22, 22,
    45,
];

// The row for a number; that of 0 past the last row.
fn row_of(number: u8) -> usize
    ensures { (result < 25) × (meaning_of result ≡ meaning_of number) }
{
    let row = number as usize;
    if row < ROWS { row } else { 0 }
}

fn length_of(row: usize) -> usize
    requires { row < 25 }
    ensures { result ≡ length (meaning_of row) }
{
    let lengths = LENGTHS;
    lengths[row]
}

// The rows; each begins with the text of its number.
fn rows() -> [u8; ROWS * WIDTH]
    ensures { (k : ℕ) → k < 25 → take (length (meaning_of k)) (drop (48 * k) result) ≡ meaning_of k }
{
    MEANINGS
}

pub(crate) fn put_meaning(out: &mut [u8], at: usize, number: u8) -> usize
    requires { at + 48 ≤ length out.old }
    ensures { Wrote at (meaning_of number) out.old out.new result }
{
    let row = row_of(number);
    let start = WIDTH * row;
    let end = start + length_of(row);
    let all = rows();
    put(out, at, &all[start..end])
}
