// A programme: what a sheet's chain words answer, and the table, made once of a sheet, by which a bench asks for it.
// Promises: a sheet's first fault, or its table; looking answers up in it is running the chain words in the model (proofs/Theorems, agrees).
// Rests on: sheet (its verdict and sections), records and entries (descriptions and their entries), compiler (what it writes, in the definitions).
#![tactic(auto)]

ghost use Rattle.buffer.specs.Room.{Delivered};
ghost use Rattle.programme.specs.Table.{prepared};

use buffer::{OUTPUT_TOO_SHORT, Outcome};
use sections::put_sections;

mod sections;
mod slots;

// How many numbers a table has (proofs/Theorems, table_length).
pub const TABLE_LENGTH: usize = kinds::ALL_ENTRIES;

// The table of a sheet, written at the start of `out`.
#[tactic(auto, using(crate::proofs::Theorems::table_length_law, sheet::proofs::Laid::judged_accepted, sheet::proofs::Laid::judged_refusal, buffer::proofs::Writing::too_short))]
pub fn prepare(sheet: &[u8], out: &mut [u32]) -> Outcome
    ensures { Delivered (prepared sheet.now) out.old result out.new }
{
    let found = sheet::judge_parts(sheet);
    if found.refusal != 0 {
        return Outcome::Refused(found.refusal, found.place);
    }
    if out.len() < TABLE_LENGTH {
        return Outcome::Refused(OUTPUT_TOO_SHORT, TABLE_LENGTH);
    }
    put_sections(out, sheet, found);
    Outcome::Done(TABLE_LENGTH)
}
