// The layout of a sheet: the sizes that follow from the table of kinds.
ghost use Rattle.std.specs.Prelude.{◌≡◌};
ghost use Rattle.records.specs.Sections.{most_of, record_size, section_size};

use crate::LABEL_SIZE;

// The most records of a section; its slots are below this. 0 for a section that no sheet has.
pub fn most(section: usize) -> usize
    ensures { result ≡ most_of section }
{
    kinds::row_of(section).most
}

// How many bytes a record has.
#[tactic(auto, using(kinds::proofs::Rows::description_byte))]
pub fn record_size(section: usize) -> usize
    ensures { result ≡ record_size section }
{
    1 + LABEL_SIZE + kinds::row_of(section).size
}

// How many bytes a section of so many records has, its count included.
#[tactic(auto, using(crate::proofs::Bounds::section_bound))]
pub fn section_size(section: usize, count: u8) -> usize
    ensures { result ≡ section_size section count }
{
    1 + usize::from(count) * record_size(section)
}
