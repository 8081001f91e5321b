// The least sample that tells two patterns apart.
ghost use Rattle.std.specs.Prelude.{◌≡◌};
ghost use Rattle.lut.specs.Telling.{Says, Least};
ghost use Rattle.term.specs.Rule.{hit};
ghost use Rattle.term.specs.Telling.{term_telling};

use crate::Pattern;
use lut::{Input, Telling};

// By the targets cut to the masks: where they differ, the lesser; where only the masks differ, the target with the lowest line
// that one mask has and the other has not.
pub(crate) fn term_telling(old: Pattern, new: Pattern) -> Telling
    ensures value { result ≡ term_telling old.target old.mask new.target new.mask }
    ensures says { Says (hit old) (hit new) result }
    ensures least { Least (hit old) (hit new) result }
{
    let a = old.target & old.mask;
    let b = new.target & new.mask;
    if a != b {
        return Telling::Apart(Input::Sample(a.min(b)));
    }
    if old.mask == new.mask {
        return Telling::Alike;
    }
    let lowest = 1 << (old.mask ^ new.mask).trailing_zeros();
    Telling::Apart(Input::Sample(a + lowest))
}
