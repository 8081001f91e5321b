// Items: the commands of one record, written at the start of lent room.
ghost use Rattle.std.specs.Prelude.{◌≡◌, ◌*◌, ◌≤◌, ◌<◌, length, replicate};
ghost use Rattle.buffer.specs.Room.{bytes, Delivered};
ghost use Rattle.sheet.specs.Parsed.{Faultless};
ghost use Rattle.kinds.specs.Table.{pieces};
ghost use Rattle.compiler.specs.Items.{item_size};
ghost use Rattle.compiler.specs.Chains.{loaded_at, loaded_of, commands_of};

use buffer::{OUTPUT_TOO_SHORT, Outcome};
use command::COMMAND_SIZE;
use kinds::Row;

// How many bytes an item of a section takes up: five for each select and for each word. None for a section that no sheet has.
pub fn item_size(section: usize) -> usize
    ensures { result ≡ item_size section }
{
    let row = kinds::row_of(section);
    row.chains * (COMMAND_SIZE + COMMAND_SIZE * row.each)
}

// A section's chains, at neighbouring addresses, each in the room behind the one before.
fn put_chains(out: &mut [u8], address: u32, words: &[u32], row: Row) -> Outcome
    requires { (address < 1024) × (row.chains ≤ 15) × (row.each ≤ 32) × (row.chains * row.each ≤ length words.now) }
    ensures { Delivered (bytes (commands_of (loaded_at address (pieces (replicate row.chains row.each) words.now)))) out.old result out.new }
{
    let size = COMMAND_SIZE + COMMAND_SIZE * row.each;
    let needed = row.chains * size;
    if out.len() < needed {
        return Outcome::Refused(OUTPUT_TOO_SHORT, needed);
    }
    for i in 0..row.chains {
        let chain = &words[i * row.each..(i + 1) * row.each];
        command::put_chain(&mut out[i * size..], address + i as u32, chain);
    }
    Outcome::Done(needed)
}

// The item of a record without fault. Its words are made in lent room.
pub(crate) fn put_item(out: &mut [u8], section: usize, rec: &[u8], words: &mut [u32]) -> Outcome
    requires { Faultless section 0 rec.now × (length words.old ≡ 32) }
    ensures { Delivered (bytes (commands_of (loaded_of section rec.now))) out.old result out.new }
{
    kinds::put_words(words, section, records::description(rec));
    let address = kinds::address(section, records::slot(rec));
    put_chains(out, address, words, kinds::row_of(section))
}
