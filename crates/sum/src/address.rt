// Where a sum's chain is.
ghost use Rattle.std.specs.Prelude.{◌≡◌};
ghost use Rattle.sum.specs.Address.{sum_address};

// The address of a slot's chain.
pub fn sum_address(slot: u8) -> u32
    ensures { result ≡ sum_address slot }
{
    let s = u32::from(slot);
    0x40 + 4 * (s / 3) + s % 3
}
