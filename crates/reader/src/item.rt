// An item's commands, judged and read in one pass: at each command 13, 14 and 15.
ghost use Rattle.std.specs.Prelude.{◌≡◌, [], ◌∷◌, ◌+◌, ◌≤◌, ◌<◌, length, drop};
ghost use Rattle.buffer.specs.Verdict.{and_then};
ghost use Rattle.command.specs.Reading.{number, loads_verdict, words_in};
ghost use Rattle.kinds.specs.Table.{sections, section_at, slot_at, lengths_of};
ghost use Rattle.compiler.specs.Chains.{words_read};
ghost use Rattle.reader.specs.Judging.{first_verdict, chains_verdict};
ghost use Rattle.reader.specs.Taking.{Taken};

use buffer::Verdict;
use command::{COMMAND_SIZE, LOAD, SELECT};
use kinds::{Place, SECTIONS};

// The refusal number of a select command's address.
const BAD_ADDRESS: u8 = 15;

// As many words as `into` has room for, from `at` on.
fn take_words(stream: &[u8], at: usize, into: &mut [u32]) -> Verdict
    ensures { Taken (loads_verdict (length into.old) at (drop at stream.now)) (words_in (length into.old) (drop at stream.now)) result into.new }
{
    let mut from = at;
    for word in into.iter_mut() {
        if let Verdict::Refused(number, place) = command::check_command(stream, from, LOAD) {
            return Verdict::Refused(number, place);
        }
        *word = command::number_at(stream, from);
        from += COMMAND_SIZE;
    }
    Verdict::Accepted
}

// One chain at `at`: a select with the address due, and as many words as `into` has room for.
fn take_chain(stream: &[u8], at: usize, due: u32, into: &mut [u32]) -> Verdict
    ensures { Taken (chains_verdict (length into.old ∷ []) due at (drop at stream.now)) (words_in (length into.old) (drop (at + 5) stream.now)) result into.new }
{
    if let Verdict::Refused(number, place) = command::check_command(stream, at, SELECT) {
        return Verdict::Refused(number, place);
    }
    if command::number_at(stream, at) != due {
        return Verdict::Refused(BAD_ADDRESS, at);
    }
    take_words(stream, at + COMMAND_SIZE, into)
}

// An item of a stream: where its first select stands, the address there, and the section and slot of the address.
#[derive(Clone, Copy)]
pub(crate) struct Item<'a> {
    pub(crate) stream: &'a [u8],
    pub(crate) at: usize,
    pub(crate) address: u32,
    pub(crate) place: Place,
    ghost known: { (address ≡ number (drop at stream.now)) × (place.section ≡ section_at address) × (place.slot ≡ slot_at (section_at address) address) },
}

impl Item<'_> {
    // Its first select. `low` is the least address that may come.
    fn check_first(&self, low: u32) -> Verdict
        ensures { let i = self.now in result ≡ first_verdict low i.at (drop i.at i.stream.now) }
    {
        let select = command::check_command(self.stream, self.at, SELECT);
        if let Verdict::Refused(number, place) = select {
            return Verdict::Refused(number, place);
        }
        if SECTIONS <= self.place.section || self.address < low {
            return Verdict::Refused(BAD_ADDRESS, self.at);
        }
        Verdict::Accepted
    }

    // All its chains, the first at its address, each other at the next one: their words, one after the other.
    fn take_chains(&self, words: &mut [u32]) -> Verdict
        requires { (self.now.address < 128) × (32 ≤ length words.old) }
        ensures { let i = self.now in let s = drop i.at i.stream.now in
            Taken (chains_verdict (lengths_of i.place.section) i.address i.at s) (words_read (lengths_of i.place.section) s) result words.new }
    {
        let each = kinds::chain_length(self.place.section);
        let mut from = self.at;
        for i in 0..kinds::chain_count(self.place.section) {
            let due = self.address + i as u32;
            let part = &mut words[i * each..(i + 1) * each];
            if let Verdict::Refused(number, place) = take_chain(self.stream, from, due, part) {
                return Verdict::Refused(number, place);
            }
            from += COMMAND_SIZE + COMMAND_SIZE * each;
        }
        Verdict::Accepted
    }

    // Its first select, and all its chains.
    pub(crate) fn take(&self, low: u32, words: &mut [u32]) -> Verdict
        requires { 32 ≤ length words.old }
        ensures { let i = self.now in let s = drop i.at i.stream.now in
            Taken (and_then (first_verdict low i.at s) (chains_verdict (lengths_of i.place.section) i.address i.at s)) (words_read (lengths_of i.place.section) s) result words.new }
    {
        if let Verdict::Refused(number, place) = self.check_first(low) {
            return Verdict::Refused(number, place);
        }
        self.take_chains(words)
    }
}
