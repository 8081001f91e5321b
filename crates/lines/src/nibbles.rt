// The lines four by four: what is done to one nibble is done to all eight of a word at once, without table or branch.
ghost use Rattle.std.specs.Prelude.{◌≡◌, ℕ, ◌+◌, ◌-◌, ◌*◌, ◌/◌, ◌%◌, ◌^◌, ◌≤◌, ◌<◌};
ghost use Rattle.std.specs.Int.Bits.{bit_and};
ghost use Rattle.std.specs.Int.Count.{ones_in};
ghost use Rattle.lines.specs.Gather.{gathered};

// Where a bit is in holes, the bit above it comes down to it.
fn closed(x: u32, holes: u32) -> u32
    ensures { result ≡ x - bit_and (x / 2) holes }
{
    x - ((x >> 1) & holes)
}

// The masked lines of each nibble, packed. In a pair the lower line is a hole if it is unmasked; then the upper pair, at
// four times its value, comes down to twice its value for one unmasked line in the lower pair, to itself for two.
pub(crate) fn packed_nibbles(sample: u32, mask: u32) -> u32
    ensures { (i : ℕ) → i < 8 → result / 2 ^ (4 * i) % 16 ≡ gathered 4 (sample / 2 ^ (4 * i)) (mask / 2 ^ (4 * i)) }
{
    let unmasked = !mask;
    let pairs = closed(sample & mask, unmasked & 0x5555_5555);
    let first = unmasked & 0x1111_1111;
    let second = (unmasked >> 1) & 0x1111_1111;
    let one = (first | second) * 3;
    let two = (first & second) * 3;
    let upper = pairs >> 2;
    pairs - (upper & one) * 2 - (upper & two)
}

// The counts of the two pairs of the lower nibble of each byte, added.
fn counted(pairs: u32) -> u32
    ensures { (result ≡ bit_and pairs 0x03030303 + bit_and (pairs / 4) 0x03030303) × (result ≤ 0x06060606) }
{
    (pairs & 0x0303_0303) + ((pairs >> 2) & 0x0303_0303)
}

// How many lines are unmasked in the lower nibble of each byte.
pub(crate) fn unmasked_in_lower(mask: u32) -> u32
    ensures { (i : ℕ) → i < 4 → result / 2 ^ (8 * i) % 16 ≡ 4 - ones_in 4 (mask / 2 ^ (8 * i)) }
{
    counted(closed(!mask, 0x5555_5555))
}

// How many lines are unmasked in each byte.
pub(crate) fn unmasked_in_bytes(mask: u32) -> u32
    ensures { (i : ℕ) → i < 4 → result / 2 ^ (8 * i) % 16 ≡ 8 - ones_in 8 (mask / 2 ^ (8 * i)) }
{
    let pairs = closed(!mask, 0x5555_5555);
    counted(pairs) + counted(pairs >> 4)
}
