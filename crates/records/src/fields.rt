// The fields of a record. What lies past the record's end counts as nothing, and in a number as 0.
ghost use Rattle.std.specs.Prelude.{◌≡◌};
ghost use Rattle.records.specs.Sections.{slot_of, slot_digits, label_of, description_of, sum_of};

use crate::{LABEL_SIZE, OPERATIONS, Sum};

pub fn slot(bytes: &[u8]) -> u8
    ensures { result ≡ slot_of bytes.now }
{
    peek::byte_at(bytes, 0)
}

// A slot as people read it, in two decimal digits. No section has a hundred slots.
pub fn slot_digits(slot: u8) -> [u8; 2]
    ensures { result ≡ slot_digits slot }
{
    [b'0' + slot / 10, b'0' + slot % 10]
}

pub fn label(bytes: &[u8]) -> &[u8]
    ensures { result.now ≡ label_of bytes.now }
{
    peek::prefix(peek::suffix(bytes, 1), LABEL_SIZE)
}

pub fn description(bytes: &[u8]) -> &[u8]
    ensures { result.now ≡ description_of bytes.now }
{
    peek::suffix(bytes, 1 + LABEL_SIZE)
}

// The record of a sum, by value.
pub fn sum_record(bytes: &[u8]) -> Sum
    ensures { result ≡ sum_of bytes.now }
{
    let mut name = [0u8; LABEL_SIZE];
    let mut ops = [0u8; OPERATIONS];
    buffer::put_bytes(&mut name, label(bytes));
    buffer::put_bytes(&mut ops, peek::prefix(description(bytes), OPERATIONS));
    Sum {
        slot: slot(bytes),
        label: name,
        ops,
    }
}
