// A walk over a sheet by its counts: which count or record starts at an offset, and which record had a label first.
ghost use Rattle.std.specs.Prelude.{◌-◌, ◌≤◌};

use records::{label, record_size};

// What starts at `at`: the count of a section, or a record of it.
#[derive(Clone, Copy)]
pub struct Cursor {
    pub at: usize,
    pub section: usize,
    // None for the count.
    pub record: Option<Nth>,
}

// One of so many; the first has the number 1.
#[derive(Clone, Copy)]
pub struct Nth {
    pub number: usize,
    pub count: usize,
}

impl Nth {
    // The one behind it, if there is one.
    fn next(self) -> Option<Nth> {
        if self.number < self.count {
            Some(Nth {
                number: self.number + 1,
                count: self.count,
            })
        } else {
            None
        }
    }
}

impl Cursor {
    // The first count.
    pub fn start() -> Cursor {
        Cursor {
            at: 0,
            section: 0,
            record: None,
        }
    }

    // What comes behind it, no further than `end`.
    pub fn next(self, sheet: &[u8], end: usize) -> Cursor
        ensures { end - result.at ≤ end - self.at - 1 }
    {
        let (size, here) = match self.record {
            None => (1, before_first(peek::byte_at(sheet, self.at))),
            Some(record) => (record_size(self.section), record),
        };
        let at = ahead(self.at, size, end);
        match here.next() {
            Some(record) => Cursor {
                at,
                section: self.section,
                record: Some(record),
            },
            None => Cursor {
                at,
                section: self.section.saturating_add(1).min(kinds::SECTIONS),
                record: None,
            },
        }
    }
}

// Where a count stands, before its first record.
fn before_first(count: u8) -> Nth {
    Nth {
        number: 0,
        count: usize::from(count),
    }
}

// So many bytes on, at least one, and no further than `end`.
fn ahead(at: usize, size: usize, end: usize) -> usize
    ensures { end - result ≤ end - at - 1 }
{
    at.saturating_add(size.max(1)).min(end)
}

// What starts at a place that a sheet's refusal names.
pub(crate) fn seek(sheet: &[u8], place: usize) -> Cursor {
    let mut here = Cursor::start();
    while here.at < place {
        here = here.next(sheet, place);
    }
    here
}

// The first record of a section that has the label of this later one; the later one itself where no other has.
pub(crate) fn first_alike(sheet: &[u8], later: Cursor) -> Cursor {
    let mut here = Cursor::start();
    while here.at < later.at {
        if is_alike(sheet, here, later) {
            return here;
        }
        here = here.next(sheet, later.at);
    }
    later
}

// Whether two records are of one section and have one label; a count has none.
fn is_alike(sheet: &[u8], here: Cursor, later: Cursor) -> bool {
    here.record.is_some()
        && here.section == later.section
        && label(peek::suffix(sheet, here.at)) == label(peek::suffix(sheet, later.at))
}
