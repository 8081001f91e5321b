// The entries of all slots, section behind section.
ghost use Rattle.std.specs.Prelude.{◌≡◌, ◌+◌, ◌≤◌, length};
ghost use Rattle.buffer.specs.Room.{Wrote};
ghost use Rattle.buffer.specs.declared.Verdict.TheVariants.{Accepted};
ghost use Rattle.records.specs.Sections.{most_of};
ghost use Rattle.records.specs.Records.{records_in};
ghost use Rattle.sheet.specs.Reading.{verdict};
ghost use Rattle.sheet.specs.Parts.{judged_of};
ghost use Rattle.sheet.specs.Parsed.{parse, Ordered};
ghost use Rattle.programme.specs.Table.{entries_from, table_of};

use crate::slots::put_slot;
use kinds::SECTIONS;
use sheet::Judged;

// The entries of every slot of a section, by one walk over its records, from an index of the room on. Answers the index behind them.
#[tactic(auto, using(kinds::proofs::Rows::most_byte))]
fn put_section(out: &mut [u32], from: usize, section: usize, part: &[u8]) -> usize
    requires part_in_bounds { from + length (entries_from (most_of section) 0 section (records_in section part.now)) ≤ length out.old }
    requires ordered { Ordered section 0 (records_in section part.now) }
    ensures { Wrote from (entries_from (most_of section) 0 section (records_in section part.now)) out.old out.new result }
{
    let row = kinds::row_of(section);
    let mut at = from;
    let mut i = 0;
    for slot in 0..row.most {
        let rec = records::record_with(part, section, i, slot as u8);
        put_slot(&mut out[at..], section, rec);
        at += row.entry;
        i += rec.len();
    }
    at
}

// The entries of every section of a sheet that is accepted, by where its sections lie.
pub(crate) fn put_sections(out: &mut [u32], sheet: &[u8], found: Judged) -> usize
    requires sheet_in_bounds { length (table_of (parse sheet.now)) ≤ length out.old }
    requires sheet_value { (verdict sheet.now ≡ Accepted) × (found ≡ judged_of sheet.now) }
    ensures { Wrote 0 (table_of (parse sheet.now)) out.old out.new result }
{
    let mut at = 0;
    for section in 0..SECTIONS {
        let part = peek::prefix(
            peek::suffix(sheet, found.starts[section]),
            found.sizes[section],
        );
        at = put_section(out, at, section, part);
    }
    at
}
