// What each address is for, as the table of kinds has it.
use kinds::{Place, SECTIONS};

// The item that an address belongs to: it starts there, or one address before where an item has two chains. Its section
// is SECTIONS where there is none.
pub(crate) fn item_at(address: u32) -> Place {
    let here = kinds::place_at(address);
    if here.section < SECTIONS || address == 0 {
        return here;
    }
    let before = kinds::place_at(address - 1);
    if kinds::chain_count(before.section) < 2 {
        here
    } else {
        before
    }
}

// How many words the chain of an address has.
pub(crate) fn chain_words(address: u32) -> usize {
    kinds::chain_length(item_at(address).section)
}

// Whether an item starts at an address.
pub(crate) fn is_first(address: u32) -> bool {
    kinds::place_at(address).section < SECTIONS
}

// Whether an address is that of a chain that another has to follow, one address on.
pub(crate) fn is_lower_chain(address: u32) -> bool {
    1 < kinds::chain_count(kinds::place_at(address).section)
}
