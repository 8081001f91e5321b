// What a walk over two sheets meets first at a slot.
ghost use Rattle.std.specs.Prelude.{◌≡◌, ℕ, ◌||◌};
ghost use Rattle.compare.specs.Same.{same};
ghost use Rattle.records.specs.Sections.{label_of};
ghost use Rattle.findings.specs.Walk.{change_lines, left_lines, met_lines};

use crate::Finding;

// No line is left; NAME; or a line behind which the slot has no other.
#[derive(Clone, Copy)]
pub(crate) enum Met {
    Nothing,
    Label,
    Last(Finding),
}

// Of two records with one slot, behind NAME. What changed is asked only where their descriptions differ.
fn meet_change(section: usize, old: &[u8], new: &[u8]) -> Met
    ensures { (slot : ℕ) → change_lines section slot old.now new.now ≡ met_lines section slot old.now new.now result }
{
    let a = records::description(old);
    let b = records::description(new);
    if compare::same_bytes(a, b) {
        return Met::Nothing;
    }
    Met::Last(Finding::Changed(kinds::telling_of(section, a, b)))
}

// Of two records with one slot: whether no line NAME is left.
fn is_past_name(named: bool, old: &[u8], new: &[u8]) -> bool
    ensures { result ≡ (named || same (label_of old.now) (label_of new.now)) }
{
    named || compare::same_bytes(records::label(old), records::label(new))
}

// Of a slot. An empty part stands for a sheet that has no such slot; `named`: its line NAME has been given.
pub(crate) fn meet(section: usize, named: bool, old: &[u8], new: &[u8]) -> Met
    ensures { (slot : ℕ) → left_lines named section slot old.now new.now ≡ met_lines section slot old.now new.now result }
{
    match (old.is_empty(), new.is_empty()) {
        (true, true) => Met::Nothing,
        (true, false) => Met::Last(Finding::New),
        (false, true) => Met::Last(Finding::Gone),
        _ if is_past_name(named, old, new) => meet_change(section, old, new),
        _ => Met::Label,
    }
}
