// The verdict on a sheet: read left to right, the first fault wins.
ghost use Rattle.std.specs.Prelude.{ℕ, ◌≤◌, ◌≡◌, List, [], map, length, drop};
ghost use Rattle.buffer.specs.Verdict.{VerdictNumbered};
ghost use Rattle.records.specs.Sections.{record_size, label_of};
ghost use Rattle.sheet.specs.Reading.{among, least_slot, record_fault, records_verdict, section_verdict, verdict};

use crate::met::Records;
use buffer::Verdict;
use kinds::{SECTIONS, fault};
use records::{LABEL_SIZE, most, record_size, section_size, slot};

// The refusal numbers of a sheet; 6 to 10 and 18 are a description's own. 0 is no fault.
const NO_FAULT: u8 = 0;

const INCOMPLETE: u8 = 1;

const COUNT_TOO_BIG: u8 = 2;

const SLOT_TOO_BIG: u8 = 3;

const SLOT_NOT_RISING: u8 = 4;

const BAD_LABEL: u8 = 5;

const LEFT_OVER: u8 = 11;

const LABEL_TAKEN: u8 = 19;

// The first and the last byte that a label may have.
const LABEL_FIRST: u8 = 0x20;

const LABEL_LAST: u8 = 0x7e;

// The first fault of a whole record, 0 if it has none. Its slot has to be at least `floor`; `taken` says whether an
// earlier record has its label.
fn record_fault(section: usize, floor: usize, taken: bool, bytes: &[u8]) -> u8
    requires { record_size section ≤ length bytes.now }
    ensures { (before : List (List ℕ)) → least_slot before ≡ floor → among (label_of bytes.now) (map label_of before) ≡ taken → result ≡ record_fault section before bytes.now }
{
    let slot = usize::from(slot(bytes));
    if most(section) <= slot {
        return SLOT_TOO_BIG;
    }
    if slot < floor {
        return SLOT_NOT_RISING;
    }
    if !compare::all_within(LABEL_FIRST, LABEL_LAST, &bytes[1..1 + LABEL_SIZE]) {
        return BAD_LABEL;
    }
    if taken {
        return LABEL_TAKEN;
    }
    fault(section, &bytes[1 + LABEL_SIZE..])
}

// The verdict on `count` records of a section, the first of which starts at `start`.
fn check_records(sheet: &[u8], section: usize, count: usize, start: usize) -> Verdict
    requires { start ≤ length sheet.now }
    ensures { result ≡ records_verdict section count [] start (drop start sheet.now) }
{
    let size = record_size(section);
    let records = Records {
        sheet,
        section,
        start,
    };
    let repeat = records.first_met(count);
    let mut floor: usize = 0;
    for done in 0..count {
        let at = start + done * size;
        if sheet.len() - at < size {
            return Verdict::Refused(INCOMPLETE, at);
        }
        let next = &sheet[at..at + size];
        let number = record_fault(section, floor, done == repeat, next);
        if number != NO_FAULT {
            return Verdict::Refused(number, at);
        }
        floor = usize::from(slot(next)) + 1;
    }
    Verdict::Accepted
}

// The verdict on a section whose count stands at `at`.
fn check_section(sheet: &[u8], section: usize, at: usize) -> Verdict
    ensures { result ≡ section_verdict section at (drop at sheet.now) }
{
    if sheet.len() <= at {
        return Verdict::Refused(INCOMPLETE, at);
    }
    let count = usize::from(peek::byte_at(sheet, at));
    if most(section) < count {
        return Verdict::Refused(COUNT_TOO_BIG, at);
    }
    check_records(sheet, section, count, at + 1)
}

// The verdict on a sheet: accepted, or its first fault by number and place.
pub fn check(sheet: &[u8]) -> Verdict
    ensures value { result ≡ verdict sheet.now }
    ensures verdict_numbered { VerdictNumbered (verdict sheet.now) result }
{
    let mut at = 0;
    for section in 0..SECTIONS {
        match check_section(sheet, section, at) {
            Verdict::Refused(number, place) => {
                return Verdict::Refused(number, place);
            }
            Verdict::Accepted => {}
        }
        at += section_size(section, peek::byte_at(sheet, at));
    }
    if at < sheet.len() {
        Verdict::Refused(LEFT_OVER, at)
    } else {
        Verdict::Accepted
    }
}
