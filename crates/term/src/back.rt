// The way back: the pattern that writes given chain words, or nothing. The words are decoded, and the pattern is encoded again.
ghost use Rattle.std.specs.Prelude.{◌≡◌, ℕ, ◌^◌, ◌<◌};
ghost use Rattle.lut.specs.Back.{ReadNumbered};
ghost use Rattle.term.specs.Rule.{Accepted};
ghost use Rattle.term.specs.Words.{words_of};
ghost use Rattle.term.specs.Back.{nibble_target, nibble_mask, Reads, word_part, part_of, read_term, ReadMeans, read_number, read_place};

use crate::Pattern;

// The target that a table is read as: the lowest address that answers 1.
fn nibble_target(table: u32) -> u32
    ensures { result ≡ nibble_target table }
{
    table.trailing_zeros() % 16
}

// The mask that a table is read as: the lines whose change makes the answer 0.
fn nibble_mask(table: u32) -> u32
    ensures { result ≡ nibble_mask table }
{
    let a = nibble_target(table);
    let mut mask: u32 = 0;
    for j in 0u32..4 {
        if (table >> (a ^ (1 << j))) % 2 == 0 {
            mask += 1 << j;
        }
    }
    mask
}

// The eight lines that a word has, by what `read` has of a table's four.
fn word_part<F: Fn(u32) -> u32 + Copy>(read: F, word: u32) -> u32
    requires callable { F.IsAlwaysCallable read }
    requires four_lines { (table lines : ℕ) → table < 2 ^ 32 → F.post read table lines → lines < 2 ^ 4 }
    ensures eight_lines { result < 2 ^ 8 }
    ensures same_part { (part : ℕ → ℕ) → Reads (F.post read) part → result ≡ word_part part word }
{
    read(word / 65536) * 16 + read(word % 65536)
}

// The same of four words; 0 for any other count.
fn four_part<F: Fn(u32) -> u32 + Copy>(read: F, words: &[u32]) -> u32
    requires callable { F.IsAlwaysCallable read }
    requires four_lines { (table lines : ℕ) → table < 2 ^ 32 → F.post read table lines → lines < 2 ^ 4 }
    ensures { (part : ℕ → ℕ) → Reads (F.post read) part → result ≡ part_of part words.now }
{
    if words.len() != 4 {
        return 0;
    }
    let mut lines: u32 = 0;
    for word in words {
        lines = lines * 256 + word_part(read, *word);
    }
    lines
}

// The pattern that writes these words, its target cut to its mask, or that none does.
pub fn read_term(words: &[u32]) -> Option<Pattern>
    ensures value { result ≡ read_term words.now }
    ensures read_means { ReadMeans words.now result }
    ensures read_numbered { ReadNumbered Accepted words_of words.now (read_number result) (read_place result) }
{
    let pattern = Pattern {
        target: four_part(nibble_target, words),
        mask: four_part(nibble_mask, words),
    };
    let again = super::words::term_words(pattern);
    compare::same_words(words, &again).then_some(pattern)
}
