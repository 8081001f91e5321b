// What tells two ranges apart, over the bytes of their descriptions.
ghost use Rattle.std.specs.Prelude.{◌≡◌};
ghost use Rattle.lut.specs.Telling.{Says};
ghost use Rattle.range.specs.Rule.{hit, Accepted};
ghost use Rattle.range.specs.Description.{from_bytes};
ghost use Rattle.range_telling.specs.Description as description;

use lut::Telling;

// A sample that tells two accepted descriptions apart, or that none does.
pub fn telling_of(old: &[u8], new: &[u8]) -> Telling
    ensures value { result ≡ description.telling old.now new.now }
    ensures meaning { Accepted (from_bytes old.now) → Accepted (from_bytes new.now) → Says (hit (from_bytes old.now)) (hit (from_bytes new.now)) result }
{
    super::telling::range_telling(range::from_bytes(old), range::from_bytes(new))
}
