// How many cases there are, and how many agree.
use crate::cases::{Case, Rest};
use std::io;

#[derive(Clone, Copy)]
pub(crate) struct Tally {
    pub cases: u64,
    pub agree: u64,
    // The first that does not agree, counted from 1.
    pub first: Option<u64>,
    // Whether the file's end mark was met.
    pub whole: bool,
}

// More cases than a file may have: the walk ends whatever it holds.
const TOO_MANY: u64 = 1000000;

pub(crate) fn compare_all(file: &[u8]) -> Tally {
    let mut rest = Rest(file);
    let mut tally = Tally {
        cases: 0,
        agree: 0,
        first: None,
        whole: false,
    };
    for i in 0..TOO_MANY {
        match rest.compare_next() {
            Case::End => {
                tally.whole = true;
                break;
            }
            Case::Cut => break,
            Case::Agrees => tally.agree += 1,
            Case::Differs => tally.first = tally.first.or(Some(i + 1)),
        }
        tally.cases = i + 1;
    }
    tally
}

// One line.
pub(crate) fn say(rt: &impl Print, tally: Tally) -> io::Result<()> {
    print!(rt; "{} cases, {} agree", tally.cases, tally.agree)?;
    if let Some(first) = tally.first {
        print!(rt; ", the first that does not is {first}")?;
    }
    if !tally.whole {
        print!(rt; ", the file is cut")?;
    }
    println!(rt)
}
