// The table of sections: the only place that knows how many kinds of record there are. Each question has one answer for each kind.
// Promises: each call equals its column of the table in specs/, for any section number and any bytes.
// Rests on: the kinds, each in its crate (term, range with range_telling, edge, sum with sum_telling, state).
#![tactic(auto)]

mod back;
mod describe;
mod layout;

pub use back::place_at;
pub use describe::{fault, put_back, put_words, telling_of};
pub use layout::{
    ALL_BYTES, ALL_CHAINS, ALL_ENTRIES, ALL_RECORDS, ALL_WORDS, EDGE, MOST_WORDS, RANGE, STATE,
    SUM, TERM, address, chain_count, chain_length, letter, most_words, row_of,
};

// The sections by number.
pub const TERMS: usize = 0;

pub const RANGES: usize = 1;

pub const EDGES: usize = 2;

pub const SUMS: usize = 3;

pub const STATES: usize = 4;

pub const SECTIONS: usize = 5;

// The sections in the order in which they are sent: by rising address, so that the sheet's last goes first.
pub const SENDING_ORDER: [usize; SECTIONS] = [STATES, TERMS, RANGES, EDGES, SUMS];

// The numbers of a section.
#[derive(Clone, Copy)]
pub struct Row {
    // The four letters of the notice, and the one of the labels that the reader gives.
    pub name: [u8; 4],
    pub letter: u8,
    // The most records; slots are below this.
    pub most: usize,
    // How many bytes a description has.
    pub size: usize,
    // How many chains an item has, at neighbouring addresses, and how many words each of them.
    pub chains: usize,
    pub each: usize,
    // How many numbers an entry has in the table that a bench makes of a sheet.
    pub entry: usize,
}

// What an address starts.
#[derive(Clone, Copy)]
pub struct Place {
    pub section: usize,
    pub slot: u8,
}
