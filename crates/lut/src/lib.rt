// Lookup tables of sixteen bits, two to a 32-bit chain word; what the model answers; what a description is asked with, and what tells two apart.
// Promises: `answer_at` is bit n of a table for address n, for any numbers.
// Rests on: lines (a table's answer at an address is the table's digit there).
#![tactic(auto)]

ghost use Rattle.std.specs.Prelude.{◌≡◌};
ghost use Rattle.lut.specs.Table.{answer_at};
ghost use Rattle.lut.specs.Answer.{hit_or_miss};

// What the model says.
#[derive(Clone, Copy)]
pub enum Answer {
    Hit,
    Miss,
    // Refusal 17: not as many words as are needed, which is this count.
    WrongCount(usize),
}

// What a description is asked with, whatever its kind.
#[derive(Clone, Copy)]
pub enum Input {
    Nothing,
    Sample(u32),
    // An earlier and a later sample.
    Samples(u32, u32),
    // The sixteen sources of a sum.
    Sources(u32),
}

// What tells two descriptions of one kind apart.
#[derive(Clone, Copy)]
pub enum Telling {
    // They hit alike on every input.
    Alike,
    // An input on which one hits and the other misses.
    Apart(Input),
}

// The answer of a table at an address.
pub fn answer_at(table: u32, address: u32) -> u32
    ensures { result ≡ answer_at table address }
{
    lines::line_value(table, address)
}

pub fn hit_or_miss(hit: bool) -> Answer
    ensures { result ≡ hit_or_miss hit }
{
    if hit { Answer::Hit } else { Answer::Miss }
}
