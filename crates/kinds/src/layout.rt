// The numbers of each section: zeros for one that no sheet has.
#![tactic(auto, using(crate::proofs::Rows::past), unfolding(crate::specs::Table::kind_of, crate::specs::Table::name_of, crate::specs::Table::letter_of, crate::specs::Table::most_of, crate::specs::Table::description_size, crate::specs::Table::chain_count, crate::specs::Table::chain_length, crate::specs::Table::entry_size, crate::specs::Table::missing_of, crate::specs::Table::most_words_from, crate::specs::Table::address_of))]

ghost use Rattle.std.specs.Prelude.{◌≡◌};
ghost use Rattle.kinds.specs.Table.{row_of, letter_of, chain_count, chain_length, most_words, address_of};

use crate::{EDGES, RANGES, Row, STATES, SUMS, TERMS};

pub const TERM: Row = Row {
    name: *b"TERM",
    letter: b'T',
    most: 10,
    size: 8,
    chains: 1,
    each: 4,
    entry: 2,
};

pub const RANGE: Row = Row {
    name: *b"RANG",
    letter: b'R',
    most: 2,
    size: 12,
    chains: 2,
    each: 16,
    entry: 3,
};

pub const EDGE: Row = Row {
    name: *b"EDGE",
    letter: b'E',
    most: 2,
    size: 12,
    chains: 1,
    each: 8,
    entry: 3,
};

pub const SUM: Row = Row {
    name: *b"SUMS",
    letter: b'S',
    most: 48,
    size: 11,
    chains: 1,
    each: 6,
    entry: 6,
};

pub const STATE: Row = Row {
    name: *b"STAT",
    letter: b'Q',
    most: 16,
    size: 13,
    chains: 1,
    each: 1,
    entry: 1,
};

const NONE: Row = Row {
    name: [0; 4],
    letter: 0,
    most: 0,
    size: 0,
    chains: 0,
    each: 0,
    entry: 0,
};

// All sections with their most records: how many records these are, and how many bytes of descriptions, chains, words and
// numbers of a bench's table they have.
pub const ALL_RECORDS: usize = TERM.most + RANGE.most + EDGE.most + SUM.most + STATE.most;

pub const ALL_BYTES: usize = TERM.most * TERM.size
    + RANGE.most * RANGE.size
    + EDGE.most * EDGE.size
    + SUM.most * SUM.size
    + STATE.most * STATE.size;

pub const ALL_CHAINS: usize = TERM.most * TERM.chains
    + RANGE.most * RANGE.chains
    + EDGE.most * EDGE.chains
    + SUM.most * SUM.chains
    + STATE.most * STATE.chains;

pub const ALL_WORDS: usize = TERM.most * TERM.chains * TERM.each
    + RANGE.most * RANGE.chains * RANGE.each
    + EDGE.most * EDGE.chains * EDGE.each
    + SUM.most * SUM.chains * SUM.each
    + STATE.most * STATE.chains * STATE.each;

pub const ALL_ENTRIES: usize = TERM.most * TERM.entry
    + RANGE.most * RANGE.entry
    + EDGE.most * EDGE.entry
    + SUM.most * SUM.entry
    + STATE.most * STATE.entry;

// The most words that a description has: a range's.
pub const MOST_WORDS: usize = RANGE.chains * RANGE.each;

pub fn row_of(section: usize) -> Row
    ensures { result ≡ row_of section }
{
    match section {
        TERMS => TERM,
        RANGES => RANGE,
        EDGES => EDGE,
        SUMS => SUM,
        STATES => STATE,
        _ => NONE,
    }
}

// The letter of the labels that the reader gives.
pub fn letter(section: usize) -> u8
    ensures { result ≡ letter_of section }
{
    row_of(section).letter
}

// How many chains an item has, at neighbouring addresses.
pub fn chain_count(section: usize) -> usize
    ensures { result ≡ chain_count section }
{
    row_of(section).chains
}

// How many words each of its chains has.
pub fn chain_length(section: usize) -> usize
    ensures { result ≡ chain_length section }
{
    row_of(section).each
}

// The most words that a description of any section has.
pub fn most_words() -> usize
    ensures { result ≡ most_words }
{
    MOST_WORDS
}

// The address of a slot.
pub fn address(section: usize, slot: u8) -> u32
    ensures { result ≡ address_of section slot }
{
    match section {
        TERMS => 0x20 + u32::from(slot),
        RANGES => 0x30 + 2 * u32::from(slot),
        EDGES => 0x34 + u32::from(slot),
        SUMS => sum::sum_address(slot),
        STATES => u32::from(slot),
        _ => 0,
    }
}
