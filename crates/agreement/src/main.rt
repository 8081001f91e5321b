// The compiler's commands beside those of the second program (second/), case by case, over the file `cases`; and the bench examples that are run.
// Promises: it is safe and ends; what it says, how many cases there are, how many agree and what comes of each example, is compared with the stored output.
// Rests on: compiler (compile), reader (read), sheet (check), and std (the file and the output).
#![tactic(auto)]

use std::{fs, io};

mod bench;
mod cases;
mod tally;

fn main(rt: HostRuntime) -> io::Result<()> {
    let file = fs::read(&rt, "cases")?;
    let tally = tally::compare_all(&file);
    tally::say(&rt, tally)?;
    bench::say_examples(&rt)
}
