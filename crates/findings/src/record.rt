// The part of a section and the record that has a slot, by where the sheet's sections lie.
ghost use Rattle.std.specs.Prelude.{◌≡◌};
ghost use Rattle.records.specs.Records.{records_in, find};
ghost use Rattle.findings.specs.Walk.{part_by, record_by, IsRecordWith};

use kinds::SECTIONS;
use records::record_size;
use sheet::Judged;

// The records of a section; empty if the sheet was refused, and of a section that no sheet has.
pub fn part_by<'a>(sheet: &'a [u8], judged: &Judged, section: usize) -> &'a [u8]
    ensures { result.now ≡ part_by section sheet.now judged.now }
{
    if SECTIONS <= section {
        return &sheet[..0];
    }
    peek::prefix(
        peek::suffix(sheet, judged.starts[section]),
        judged.sizes[section],
    )
}

// Of a section's part.
fn find_record<'a>(part: &'a [u8], section: usize, slot: u8) -> &'a [u8]
    ensures { result.now ≡ find slot (records_in section part.now) }
{
    part.chunks_exact(record_size(section))
        .find(|record| records::slot(record) == slot)
        .unwrap_or(&part[..0])
}

// Empty if the sheet has no such record, or was refused.
pub fn record_of<'a>(sheet: &'a [u8], judged: Judged, section: usize, slot: u8) -> &'a [u8]
    ensures result_value { result.now ≡ record_by section slot sheet.now judged }
    ensures record_with { IsRecordWith section slot sheet.now judged result.now }
{
    find_record(part_by(sheet, &judged, section), section, slot)
}
