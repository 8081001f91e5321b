// The lines of a notice, written one behind the other into room that suffices.
ghost use Rattle.std.specs.Prelude.{◌+◌, ◌≤◌, length};
ghost use Rattle.buffer.specs.Room.{Wrote};
ghost use Rattle.findings.specs.Walk.{cursor_at, part_lines};
ghost use Rattle.notice.specs.Text.{render_all};
ghost use Rattle.notice.specs.Notice.{notice_text};

use crate::Sheets;
use crate::text::put_line;
use findings::{at_section, part_by, step_in};
use kinds::SECTIONS;

// Of a section, from its two parts.
fn put_section(out: &mut [u8], from: usize, section: usize, old: &[u8], new: &[u8]) -> usize
    requires { from + length (render_all (part_lines old.now new.now (cursor_at section))) ≤ length out.old }
    ensures { Wrote from (render_all (part_lines old.now new.now (cursor_at section))) out.old out.new result }
{
    let mut at = from;
    let mut here = at_section(section);
    while let Some((line, next)) = step_in(old, new, here) {
        at = put_line(out, at, line);
        here = next;
    }
    at
}

// Of two sheets.
pub(crate) fn put_sections(out: &mut [u8], sheets: &Sheets) -> usize
    requires { length (notice_text sheets.now.old.now sheets.now.new.now) ≤ length out.old }
    ensures { Wrote 0 (notice_text sheets.now.old.now sheets.now.new.now) out.old out.new result }
{
    let mut at: usize = 0;
    for section in 0..SECTIONS {
        let old = part_by(sheets.old, &sheets.olds, section);
        let new = part_by(sheets.new, &sheets.news, section);
        at = put_section(out, at, section, old, new);
    }
    at
}
