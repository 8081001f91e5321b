// Which states are accepted.
ghost use Rattle.std.specs.Prelude.{◌≡◌};
ghost use Rattle.state.specs.Fields.{fits};

use crate::{FLAG_LAST, NUMBER_LAST, STATE_LAST, State};

// Whether each field fits its bits.
pub(crate) fn fields_fit(s: State) -> bool
    ensures { result ≡ fits s }
{
    s.number <= NUMBER_LAST && s.branch <= STATE_LAST && compare::all_within(0, FLAG_LAST, &s.flags)
}
