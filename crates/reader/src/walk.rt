// The walk over a stream, item by item: each is judged, and its record kept at once; 16 when an item's last word is in.
ghost use Rattle.reader.specs.Taking.{Empty, Walked};

use crate::item::Item;
use crate::keep::keep_record;
use buffer::Verdict;
use kinds::MOST_WORDS;

// The refusal number of an item's words.
const BAD_WORDS: u8 = 16;

// The verdict on a stream: accepted, with its sheet in the room, or its first fault by number and place.
pub(crate) fn walk(stream: &[u8], room: &mut [u8]) -> Verdict
    requires { Empty room.old }
    ensures { Walked stream.now result room.new }
{
    let mut words = [0u32; MOST_WORDS];
    let mut at: usize = 0;
    let mut low: u32 = 0;
    while at < stream.len() {
        let address = command::number_at(stream, at);
        let place = kinds::place_at(address);
        let item = Item {
            stream,
            at,
            address,
            place,
        };
        if let Verdict::Refused(number, place) = item.take(low, &mut words) {
            return Verdict::Refused(number, place);
        }
        if keep_record(room, place, &words) == 0 {
            return Verdict::Refused(BAD_WORDS, at);
        }
        low = address + 1;
        at += compiler::item_size(place.section);
    }
    Verdict::Accepted
}
