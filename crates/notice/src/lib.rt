// The alteration notice as text: what changed between two set-up sheets, old and new, line by line.
// Promises: over any bytes and any room, the rendered lines and their length, or a refusal that changes nothing; one line by itself; two sheets judged.
// Rests on: findings (the lines one by one, handed on here), kinds (names), sheet (verdict, sections), records, buffer (lent room).
#![tactic(auto)]

mod put;
mod sheets;
mod single;
mod text;

ghost use Rattle.std.specs.Prelude.{◌≡◌, length};
ghost use Rattle.notice.specs.Notice.{NoticeGiven, NoticeNumbered, longest_notice};

pub use findings::{Cursor, Finding, Line, next_line, record_of, start};
pub use sheets::Sheets;
pub use single::put_line;

// The most bytes that a notice has, the room in which it is built before its length is known: for each record a line NAME
// and a line ALTR of 13 bytes, and what the second shows, 9 bytes of a term or a range, 18 of an edge, 5 of a sum.
pub const LONGEST: usize = 26 * kinds::ALL_RECORDS
    + 9 * (kinds::TERM.most + kinds::RANGE.most)
    + 18 * kinds::EDGE.most
    + 5 * kinds::SUM.most;

// The same as a call, whose contract holds the constant to its definition.
pub fn longest_notice() -> usize
    ensures { result ≡ longest_notice }
{
    LONGEST
}

// What the call `notice` answers.
#[derive(Clone, Copy)]
pub enum Noticed {
    // The length written.
    Done(usize),
    // A refusal of the old sheet: its number and place.
    Old(u8, usize),
    // A refusal of the new sheet.
    New(u8, usize),
    // Refusal 12: the output is too short; this many bytes are needed.
    Short(usize),
}

// The notice of two sheets, written at the start of `out`; the old sheet speaks first, and nothing is written unless
// all of it is.
pub fn notice(old: &[u8], new: &[u8], out: &mut [u8]) -> Noticed
    ensures notice_given { NoticeGiven old.now new.now out.old result out.new }
    ensures notice_numbered { NoticeNumbered old.now new.now (length out.old) result }
{
    let sheets = match Sheets::judge(old, new) {
        Ok(sheets) => sheets,
        Err(refused) => return refused,
    };
    let mut room = [0u8; LONGEST];
    let n = put::put_sections(&mut room, &sheets);
    if out.len() < n {
        return Noticed::Short(n);
    }
    text::put(out, 0, &room[..n]);
    Noticed::Done(n)
}
