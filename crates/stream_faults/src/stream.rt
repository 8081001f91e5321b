// The command at fault in a stream, and the chain that it stands in.
use crate::addresses::{chain_words, is_first, is_lower_chain, item_at};
use command::{COMMAND_SIZE, SELECT};
use std::fmt::{self, Write};
use text::Line;

// The last select before a place, and how many words came behind it.
#[derive(Clone, Copy)]
struct Chain {
    address: u32,
    words: usize,
}

fn chain_before(stream: &[u8], place: usize) -> Option<Chain> {
    peek::prefix(stream, place)
        .chunks(COMMAND_SIZE)
        .fold(None, behind)
}

fn behind(chain: Option<Chain>, command: &[u8]) -> Option<Chain> {
    if peek::byte_at(command, 0) == SELECT {
        return Some(Chain {
            address: peek::u32_at(command, 1),
            words: 0,
        });
    }
    let chain = chain?;
    Some(Chain {
        words: chain.words.saturating_add(1),
        ..chain
    })
}

// What is wrong in a stream that `reader::read` refuses with this number and place: what stands there, and behind what.
pub fn put_stream_detail(line: &mut Line, stream: &[u8], number: u8, place: usize) {
    // A line takes what there is room for, and never fails.
    let _ = put_detail(line, stream, number, place);
}

fn put_detail(line: &mut Line, stream: &[u8], number: u8, place: usize) -> fmt::Result {
    let command = peek::suffix(stream, place);
    let chain = chain_before(stream, place);
    match number {
        13 => put_unfinished(line, command.len(), chain),
        14 => put_opcode(line, peek::byte_at(command, 0), chain),
        15 => put_address(line, peek::u32_at(command, 1), chain),
        16 => put_item(line, peek::u32_at(command, 1)),
        _ => Ok(()),
    }
}

fn put_unfinished(line: &mut Line, there: usize, chain: Option<Chain>) -> fmt::Result {
    write!(line, "{there} of a command's 5 bytes are there")?;
    put_chain(line, chain)
}

fn put_opcode(line: &mut Line, opcode: u8, chain: Option<Chain>) -> fmt::Result {
    let due = if chain.is_some_and(|chain| chain.words < chain_words(chain.address)) {
        "word (9F)"
    } else {
        "select (9E)"
    };
    write!(line, "opcode {opcode:02X}, where a {due} is due")?;
    put_chain(line, chain)
}

// The chain that came before: its select, and how many of its words.
fn put_chain(line: &mut Line, chain: Option<Chain>) -> fmt::Result {
    let Some(Chain { address, words }) = chain else {
        return line.write_str(", at the start");
    };
    write!(line, ", after select {address:02X}")?;
    match (chain_words(address), words) {
        (1, 0) => line.write_str(" without its word"),
        (1, _) => line.write_str(" and its word"),
        (all, _) => write!(line, " and {words} of its {all} words"),
    }
}

fn put_address(line: &mut Line, address: u32, chain: Option<Chain>) -> fmt::Result {
    write!(line, "select {address:02X}")?;
    match chain {
        Some(Chain { address: last, .. }) if is_lower_chain(last) => write!(
            line,
            ", where the upper chain of select {last:02X} is due, one address on"
        ),
        Some(Chain { address: last, .. }) if is_first(address) => {
            write!(line, ", which is not above select {last:02X}")
        }
        _ => line.write_str(", an address at which no item starts"),
    }
}

// The item whose words are refused.
fn put_item(line: &mut Line, address: u32) -> fmt::Result {
    let item = item_at(address);
    write!(
        line,
        "select {address:02X}, {}, slot {}",
        text::section_name(item.section),
        item.slot
    )
}
