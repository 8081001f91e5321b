// The walk over the lines of a notice: each slot of each section, with a cursor into each sheet's records.
ghost use Rattle.std.specs.Prelude.{◌≡◌, ◌+◌, ◌^◌, ◌<◌};
ghost use Rattle.findings.specs.Walk.{cursor_behind, cursor_named, cursor_at, part_lines, lines_at, step_lines, InSection, StartsAll};

use crate::meet::{Met, meet};
use crate::record::part_by;
use crate::{Cursor, Finding, Line};
use kinds::SECTIONS;
use sheet::Judged;

// Before the first line of a section.
pub fn at_section(section: usize) -> Cursor
    ensures { result ≡ cursor_at section }
{
    Cursor {
        section,
        slot: 0,
        named: false,
        old: 0,
        new: 0,
    }
}

// Before the first line.
pub fn start() -> Cursor
    ensures value { result ≡ cursor_at 0 }
    ensures starts_all { StartsAll result }
{
    at_section(0)
}

// At the next slot, behind two records of these lengths.
fn behind(at: Cursor, old: usize, new: usize) -> Cursor
    requires slot_bound { at.slot < 256 }
    requires bound { at.old + old < 2 ^ 64 }
    requires bound_2 { at.new + new < 2 ^ 64 }
    ensures { result ≡ cursor_behind at old new }
{
    Cursor {
        section: at.section,
        slot: at.slot + 1,
        named: false,
        old: at.old + old,
        new: at.new + new,
    }
}

// At the same slot, behind NAME.
fn named(at: Cursor) -> Cursor
    ensures { result ≡ cursor_named at }
{
    Cursor { named: true, ..at }
}

// The first line at or behind a cursor within its section, of the section's two parts, and the cursor behind that line.
pub fn step_in(old: &[u8], new: &[u8], from: Cursor) -> Option<(Line, Cursor)>
    ensures in_section { InSection from.section result }
    ensures from_value { part_lines old.now new.now from ≡ step_lines (part_lines old.now new.now) result }
{
    let section = from.section;
    let most = records::most(section);
    let mut at = from;
    // Not a `for` over the slots: the cursor counts them, and its record offsets move by steps of differing size.
    while at.slot < most {
        let slot = at.slot as u8;
        let line = |finding| Line {
            section,
            slot,
            finding,
        };
        let a = records::record_with(old, section, at.old, slot);
        let b = records::record_with(new, section, at.new, slot);
        let next = behind(at, a.len(), b.len());
        match meet(section, at.named, a, b) {
            Met::Nothing => at = next,
            Met::Label => return Some((line(Finding::Name), named(at))),
            Met::Last(finding) => return Some((line(finding), next)),
        }
    }
    None
}

// The first line at or behind a cursor, and the cursor behind that line, by where the sections of the two sheets lie. A
// refused sheet has none.
pub fn next_line(
    old: &[u8],
    new: &[u8],
    olds: Judged,
    news: Judged,
    from: Cursor,
) -> Option<(Line, Cursor)>
    ensures { lines_at old.now new.now olds news from ≡ step_lines (lines_at old.now new.now olds news) result }
{
    if olds.refusal != 0 || news.refusal != 0 {
        return None;
    }
    let mut at = from;
    for section in from.section..SECTIONS {
        let a = part_by(old, &olds, section);
        let b = part_by(new, &news, section);
        if let Some(step) = step_in(a, b, at) {
            return Some(step);
        }
        at = at_section(section + 1);
    }
    None
}
