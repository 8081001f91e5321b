// The page for signing below the names of the two sheets: the count of the notice's lines by sort, each line with what it says, the words' meaning.
// Promises: any bytes and any room are taken; the page is `body_text` of specs/, or a refusal that changes nothing.
// Rests on: notice (both sheets judged, the lines, the records of a slot), records (labels), kinds, lut, refusal (words, digits), buffer; sheet in the contract.
#![tactic(auto)]

mod body;
mod entry;
mod head;
mod put;
mod saying;
mod sources;

ghost use Rattle.std.specs.Prelude.{length};
ghost use Rattle.report.specs.Page.{Reported, ReportNumbered};

use notice::{Noticed, Sheets};

// The line on a slot's two labels, and any line of the notice with what it says and its labels, at the most.
const LABELS: usize = 27 + 2 * (8 + records::LABEL_SIZE);

const ENTRY: usize = 31 + 242 + LABELS;

// Room for every body (proofs/Lengths, at_most): head, of each slot a line NAME and another one, ending.
pub const LONGEST: usize = 150 + kinds::ALL_RECORDS * (13 + 30 + LABELS + ENTRY) + 754;

// How many sorts of lines there are: NAME, ALTR, WORD, NEW, GONE.
const SORTS: usize = 5;

// The body of the page on two sheets, written at the start of `out`; the old sheet speaks first, and nothing is written
// unless there is room for the longest body.
pub fn report(old: &[u8], new: &[u8], out: &mut [u8]) -> Noticed
    ensures reported { Reported old.now new.now out.old result out.new }
    ensures report_numbered { ReportNumbered old.now new.now (length out.old) result }
{
    let sheets = match Sheets::judge(old, new) {
        Ok(sheets) => sheets,
        Err(refused) => return refused,
    };
    if out.len() < LONGEST {
        return Noticed::Short(LONGEST);
    }
    let mut entries = [0u8; LONGEST];
    let (n, counts) = entry::put_entries(&mut entries, &sheets);
    Noticed::Done(body::put_body(out, &entries[..n], &counts))
}
