// The reader's room: each section's records, as the sheet has them, in a part of its own, so that the stream's order
// need not be the sheet's.
ghost use Rattle.std.specs.Prelude.{◌≡◌, ◌∷◌, ◌++◌, ◌*◌, ◌≤◌, ◌<◌, length, take};
ghost use Rattle.buffer.specs.Room.{fill};
ghost use Rattle.kinds.specs.Table.{sections, most_of, chain_count, chain_length, description_read};
ghost use Rattle.records.specs.Sections.{record_size};
ghost use Rattle.reader.specs.Back.{label_for};
ghost use Rattle.reader.specs.Taking.{part_size, count_in, kept};

use buffer::Outcome;
use kinds::{Place, SECTIONS, letter};
use records::{LABEL_SIZE, slot_digits};

// How many bytes each section has in the room: as many as the sums at their most, since no section has more.
pub(crate) const PART: usize = 1 + kinds::SUM.most * (1 + LABEL_SIZE + kinds::SUM.size);

pub(crate) const ROOM: usize = SECTIONS * PART;

// The label that the reader gives: the section's letter, the slot, and spaces.
fn label_for(place: Place) -> [u8; LABEL_SIZE]
    ensures { result ≡ label_for place.section place.slot }
{
    let digits = slot_digits(place.slot);
    let mut label = [b' '; LABEL_SIZE];
    label[0] = letter(place.section);
    label[1] = digits[0];
    label[2] = digits[1];
    label
}

// A record of these words, at the start of `out`. Answers the length of its description: 0 for words that no accepted
// one writes.
fn put_record(out: &mut [u8], place: Place, words: &[u32]) -> usize
    requires { (place.section < sections) × (record_size place.section ≤ length out.old) }
    ensures value { result ≡ length (description_read place.section words.now) }
    ensures out_after { out.new ≡ fill (place.slot ∷ (label_for place.section place.slot ++ description_read place.section words.now)) out.old }
{
    out[0] = place.slot;
    buffer::put_bytes(&mut out[1..], &label_for(place));
    let behind = &mut out[1 + LABEL_SIZE..];
    let (Outcome::Done(size) | Outcome::Refused(_, size)) = kinds::put_back(
        behind,
        place.section,
        words,
    );
    size
}

// A record more in its section's part of the room. Answers as `put_record` does.
pub(crate) fn keep_record(room: &mut [u8], place: Place, words: &[u32]) -> usize
    requires { (place.section < sections) × (length room.old ≡ sections * part_size) × (count_in place.section room.old < most_of place.section) × (32 ≤ length words.now) }
    ensures value { result ≡ length (description_read place.section (take (chain_count place.section * chain_length place.section) words.now)) }
    ensures room_after { room.new ≡ kept place.section place.slot (description_read place.section (take (chain_count place.section * chain_length place.section) words.now)) room.old }
{
    let start = PART * place.section;
    let count = room[start];
    let to = start + records::section_size(place.section, count);
    let total = kinds::chain_count(place.section) * kinds::chain_length(place.section);
    let size = put_record(&mut room[to..], place, &words[..total]);
    room[start] = count + 1;
    size
}
