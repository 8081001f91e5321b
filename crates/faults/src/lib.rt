// What is wrong with a refused sheet, in words: what stands at the place; and the walk over a sheet by its counts.
// Promises: every call is safe and ends; what does not fit is left out.
// Rests on: text (words), records (the table of sections, a record's fields), state (what fits), peek (bytes).
#![tactic(auto)]

mod cursor;
mod fields;
mod line;
mod record;
mod values;

pub use cursor::{Cursor, Nth};
pub use line::put_sheet_detail;
