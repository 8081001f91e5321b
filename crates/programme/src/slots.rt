// The entry of a slot, with a record and without.
ghost use Rattle.buffer.specs.Room.{bytes, Delivered};
ghost use Rattle.programme.specs.Table.{entry_for};

use buffer::Outcome;

// The entry of a record, or of no record where the part is empty.
#[tactic(auto, using(crate::proofs::Rows::entry_none, crate::proofs::Rows::entry_some))]
pub(crate) fn put_slot(out: &mut [u32], section: usize, rec: &[u8]) -> Outcome
    ensures { Delivered (bytes (entry_for section rec.now)) out.old result out.new }
{
    if rec.is_empty() {
        return entries::put_missing(out, section);
    }
    entries::put_entry(out, section, records::description(rec))
}
