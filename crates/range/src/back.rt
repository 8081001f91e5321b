// The way back: words decoded to a range, which is encoded again and compared.
ghost use Rattle.std.specs.Prelude.{◌≡◌, length};
ghost use Rattle.lut.specs.Back.{ReadNumbered};
ghost use Rattle.range.specs.Rule.{Accepted};
ghost use Rattle.range.specs.Words.{words_of};
ghost use Rattle.range.specs.Back.{lines_with, chain_bound, read_range, ReadMeans, read_number, read_place};

use crate::Range;
use crate::model::table_at;
use crate::words::{low_bits, range_words};

// The lines of a chain that have this table.
fn lines_with(table: u32, chain: &[u32]) -> u32
    requires { length chain.now ≡ 16 }
    ensures { result ≡ lines_with table chain.now }
{
    let mut found: u32 = 0;
    for i in (0..32).rev() {
        found = found * 2 + u32::from(table_at(chain, i) == table);
    }
    found
}

// What a chain's value is the NOT of, in as many bits as the mask has ones.
fn chain_bound(mask: u32, chain: &[u32]) -> u32
    requires { length chain.now ≡ 16 }
    ensures { result ≡ chain_bound mask chain.now }
{
    let value = lines::gather(lines_with(0x5555, chain), mask);
    low_bits(u32::MAX, mask) - value
}

// The accepted range that writes these words, or that none does.
pub fn read_range(words: &[u32]) -> Option<Range>
    ensures value { result ≡ read_range words.now }
    ensures read_means { ReadMeans words.now result }
    ensures read_numbered { ReadNumbered Accepted words_of words.now (read_number result) (read_place result) }
{
    if words.len() != 32 {
        return None;
    }
    let (lower_chain, upper_chain) = words.split_at(16);
    let mask = !lines_with(0xFFFF, lower_chain);
    let below = chain_bound(mask, lower_chain);
    let upper = chain_bound(mask, upper_chain);
    if below >= upper {
        return None;
    }
    let range = Range {
        lower: below + 1,
        upper,
        mask,
    };
    let chains = range_words(range);
    compare::same_words(words, chains.as_flattened()).then_some(range)
}
