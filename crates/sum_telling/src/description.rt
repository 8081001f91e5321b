// What tells two sums apart, over the bytes of their descriptions.
ghost use Rattle.std.specs.Prelude.{◌≡◌};
ghost use Rattle.lut.specs.Telling.{Says, Least};
ghost use Rattle.sum.specs.Description.{from_bytes};
ghost use Rattle.sum.specs.Model.{hit};
ghost use Rattle.sum_telling.specs.Description as description;

use lut::Telling;

// The least pattern of the sources that tells two descriptions apart, or that none does.
#[tactic(auto, unfolding(crate::specs::Description::telling))]
pub fn telling_of(old: &[u8], new: &[u8]) -> Telling
    ensures value { result ≡ description.telling old.now new.now }
    ensures meaning { Says (hit (from_bytes old.now)) (hit (from_bytes new.now)) result }
    ensures least { Least (hit (from_bytes old.now)) (hit (from_bytes new.now)) result }
{
    super::telling::sum_telling(sum::from_bytes(old), sum::from_bytes(new))
}
