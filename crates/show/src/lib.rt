// Sheets and streams as text, one record or command to a line.
// Promises: every call is safe and ends; what does not fit is left out.
// Rests on: faults (the walk over a sheet), text (words), records (a record's fields), peek (bytes).
#![tactic(auto)]

mod commands;
mod sheet;
mod state_text;

pub use commands::put_commands;
pub use sheet::put_sheet;
