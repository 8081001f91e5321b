// The stream of a sheet that was found without fault: section by section, in sending order.
ghost use Rattle.std.specs.Prelude.{◌≡◌, [], ◌+◌, ◌≤◌, ◌<◌, length, get_or};
ghost use Rattle.buffer.specs.Room.{bytes, Delivered, Wrote};
ghost use Rattle.buffer.specs.declared.Verdict.TheVariants.{Accepted};
ghost use Rattle.records.specs.Sections.{sections};
ghost use Rattle.sheet.specs.Reading.{verdict};
ghost use Rattle.sheet.specs.Parts.{section_of, judged_of};
ghost use Rattle.records.specs.Records.{records_in};
ghost use Rattle.sheet.specs.Parsed.{parse, Ordered};
ghost use Rattle.compiler.specs.Chains.{loaded_in, commands_of};
ghost use Rattle.compiler.specs.Stream.{stream_of};

use crate::items::{item_size, put_item};
use buffer::{OUTPUT_TOO_SHORT, Outcome};
use kinds::{MOST_WORDS, SENDING_ORDER};
use sheet::Judged;

// A sheet that was found without fault, and where its sections lie.
#[derive(Drop)]
pub(crate) struct Found<'a> {
    pub(crate) sheet: &'a [u8],
    pub(crate) laid: Judged,
    ghost whole: { (verdict sheet.now ≡ Accepted) × (laid ≡ judged_of sheet.now) },
}

// The items of a part's records, from an index of the room on: it suffices. Answers the index behind them.
fn put_section(out: &mut [u8], at: usize, section: usize, part: &[u8]) -> usize
    requires { Ordered section 0 (records_in section part.now) × (at + length (commands_of (loaded_in section (records_in section part.now))) ≤ length out.old) }
    ensures { Wrote at (commands_of (loaded_in section (records_in section part.now))) out.old out.new result }
{
    let step = item_size(section);
    let mut words = [0u32; MOST_WORDS];
    let mut to = at;
    for rec in part.chunks_exact(records::record_size(section)) {
        put_item(&mut out[to..], section, rec, &mut words);
        to += step;
    }
    to
}

impl<'a> Found<'a> {
    // The part of a section.
    fn part(&self, section: usize) -> &'a [u8]
        requires { section < sections }
        ensures { result.now ≡ section_of self.now.sheet.now section }
    {
        let behind = peek::suffix(self.sheet, self.laid.starts[section]);
        peek::prefix(behind, self.laid.sizes[section])
    }

    // How many bytes the items of a section take up. There are at most 255 of them, and none has more than 1,024 bytes.
    fn section_size(&self, section: usize) -> usize
        requires { section < sections }
        ensures { (result ≡ length (commands_of (loaded_in section (get_or (parse self.now.sheet.now) section [])))) × (result ≤ 262144) }
    {
        records::record_count(self.part(section), section) * item_size(section)
    }

    // How many bytes all the items take up.
    fn size(&self) -> usize
        ensures { result ≡ length (stream_of (parse self.now.sheet.now)) }
    {
        let mut size = 0;
        for section in SENDING_ORDER.iter() {
            size += self.section_size(*section);
        }
        size
    }

    // The items of all sections: the room is judged first, then each section is written behind the one before.
    pub(crate) fn put(&self, out: &mut [u8]) -> Outcome
        ensures { Delivered (bytes (stream_of (parse self.now.sheet.now))) out.old result out.new }
    {
        let needed = self.size();
        if out.len() < needed {
            return Outcome::Refused(OUTPUT_TOO_SHORT, needed);
        }
        let mut at = 0;
        for section in SENDING_ORDER {
            at = put_section(out, at, section, self.part(section));
        }
        Outcome::Done(needed)
    }
}
