// Numbers of four bytes side by side, as a description has them.
ghost use Rattle.std.specs.Prelude.{◌≡◌};
ghost use Rattle.peek.specs.Fields.{field_of};

use crate::bytes::u32_at;

// Number i of a description: target, mask; lower, upper, mask; rise, fall, neither.
pub fn field(description: &[u8], i: u8) -> u32
    ensures { result ≡ field_of description.now i }
{
    u32_at(description, 4 * usize::from(i))
}
