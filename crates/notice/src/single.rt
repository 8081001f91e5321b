// One line of a notice by itself, for those who put text of their own between the lines.
ghost use Rattle.buffer.specs.Room.{Put};
ghost use Rattle.notice.specs.Text.{render};

use findings::Line;

// The most bytes that a line has.
const LONGEST_LINE: usize = 31;

// From an index on. Answers the index behind, or `at` itself where the line does not fit: then nothing is written.
pub fn put_line(out: &mut [u8], at: usize, line: Line) -> usize
    ensures { Put at (render line) out.old out.new result }
{
    let mut text = [0u8; LONGEST_LINE];
    let length = crate::text::put_line(&mut text, 0, line);
    buffer::put_at(out, at, peek::prefix(&text, length))
}
