// The first record of a section whose label an earlier one has.
ghost use Rattle.std.specs.Prelude.{◌+◌, ◌*◌, ◌%◌, ◌≤◌, ◌≡◌, map, length, drop};
ghost use Rattle.peek.specs.Bytes.{u32_at};
ghost use Rattle.compare.specs.Same.{same};
ghost use Rattle.records.specs.Sections.{record_size, label_of};
ghost use Rattle.records.specs.Records.{records_from};
ghost use Rattle.sheet.specs.Reading.{among};
ghost use Rattle.sheet.specs.Repeats.{FirstMet};

use records::{LABEL_SIZE, record_size};

// How many marks there are: a prime, so that labels which differ in one byte never share one.
const MARKS: usize = 251;

// The mark of a label, its number modulo MARKS. Equal labels have equal marks.
fn mark_of(label: &[u8]) -> usize
    ensures { result ≡ (u32_at label.now 0 + 123 * u32_at label.now 4) % 251 }
{
    let first = peek::u32_at(label, 0) as usize;
    let last = peek::u32_at(label, 4) as usize;
    (first + 123 * last) % MARKS
}

// Whether two labels are the same. `first` is the number of the first four bytes of one: most others differ there.
fn is_same(label: &[u8], first: u32, other: &[u8]) -> bool
    requires { first ≡ u32_at label.now 0 }
    ensures { result ≡ same label.now other.now }
{
    peek::u32_at(other, 0) == first && compare::same_bytes(label, other)
}

// The records of a section, one behind the other in a sheet, the first at `start`. The sheet may end before they do.
#[derive(Clone, Copy)]
pub(crate) struct Records<'a> {
    pub(crate) sheet: &'a [u8],
    pub(crate) section: usize,
    pub(crate) start: usize,
}

impl Records<'_> {
    // Whether one of the first `count` records has this label. Each is compared once.
    fn is_taken(self, count: usize, label: &[u8]) -> bool
        requires { self.start + count * record_size self.section ≤ length self.sheet.now }
        ensures { result ≡ among label.now (map label_of (records_from self.entry.section count (drop self.entry.start self.entry.sheet.now))) }
    {
        let size = record_size(self.section);
        let first = peek::u32_at(label, 0);
        for i in 0..count {
            let at = self.start + i * size;
            if is_same(label, first, &self.sheet[at + 1..at + 1 + LABEL_SIZE]) {
                return true;
            }
        }
        false
    }

    // The number of the first record whose label an earlier one has, `count` if there is none before the sheet ends. Only
    // a label whose mark was met is compared. This is a walk of its own because it is faster so: beside the mark, the
    // compiler would test a label's bytes one by one and no longer all at once.
    pub(crate) fn first_met(self, count: usize) -> usize
        requires { self.start ≤ length self.sheet.now }
        ensures { FirstMet self.entry.section self.entry.start count self.entry.sheet.now result }
    {
        let size = record_size(self.section);
        let mut marks = [false; MARKS];
        for done in 0..count {
            let at = self.start + done * size;
            if self.sheet.len() - at < size {
                return count;
            }
            let label = &self.sheet[at + 1..at + 1 + LABEL_SIZE];
            let mark = mark_of(label);
            if marks[mark] && self.is_taken(done, label) {
                return done;
            }
            marks[mark] = true;
        }
        count
    }
}
