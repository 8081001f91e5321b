// Two samples that tell two descriptions apart.
ghost use Rattle.std.specs.Prelude.{◌≡◌};
ghost use Rattle.lut.specs.Telling.{Says};
ghost use Rattle.edge.specs.Rule.{hit, Accepted};
ghost use Rattle.edge.specs.Telling.{showing, tell_one, edge_telling};

use crate::rule::lines_without;
use crate::{Edge, Event};
use lut::{Input, Telling};

// Samples with the event on the given lines, and on every other line something that the description does not ask for.
fn show_event(event: Event, lines: u32, missed: Edge) -> Telling
    ensures { result ≡ showing event lines missed }
{
    let earlier = lines_without(missed.neither & missed.rise, lines);
    let later = lines_without(lines_without(missed.neither, missed.rise), lines);
    match event {
        Event::Rise => Telling::Apart(Input::Samples(earlier, later | lines)),
        Event::Fall => Telling::Apart(Input::Samples(earlier | lines, later)),
        Event::Neither => Telling::Apart(Input::Samples(earlier, later)),
    }
}

// Samples on which a hits and b misses, by an event that a asks for on lines on which b does not.
#[tactic(auto, unfolding(crate::specs::Telling::tell_by))]
fn tell_one(a: Edge, b: Edge) -> Telling
    ensures { result ≡ tell_one a b }
{
    let rise = lines_without(a.rise, b.rise);
    if rise != 0 {
        return show_event(Event::Rise, rise, b);
    }
    let fall = lines_without(a.fall, b.fall);
    if fall != 0 {
        return show_event(Event::Fall, fall, b);
    }
    let neither = lines_without(a.neither, b.neither);
    if neither != 0 {
        return show_event(Event::Neither, neither, b);
    }
    Telling::Alike
}

// Samples that tell two accepted descriptions apart, or that there are none.
pub(crate) fn edge_telling(old: Edge, new: Edge) -> Telling
    ensures value { result ≡ edge_telling old new }
    ensures meaning { Accepted old → Accepted new → Says (hit old) (hit new) result }
{
    match tell_one(old, new) {
        Telling::Alike => tell_one(new, old),
        apart => apart,
    }
}
