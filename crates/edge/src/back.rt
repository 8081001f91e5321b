// The way back: the description that writes given chain words, if an accepted one does.
ghost use Rattle.std.specs.Prelude.{◌≡◌, ◌<◌, length};
ghost use Rattle.lut.specs.Back.{ReadNumbered};
ghost use Rattle.edge.specs.Rule.{Accepted};
ghost use Rattle.edge.specs.Words.{words_of};
ghost use Rattle.edge.specs.Back.{covers, word_wish, wish_from, read_edge, ReadMeans, read_number, read_place};

use crate::Edge;
use crate::rule::edge_accepted;
use crate::words::{FALL, NEITHER, RISE, Tables, edge_words};

// 1 where the table has all the ones of an event's table, else 0.
#[tactic(auto, unfolding(crate::specs::Back::covers))]
fn covers_wish(table: u32, wish: u32) -> u32
    ensures { (result ≡ covers table wish) × (result < 2) }
{
    u32::from(table & wish == wish)
}

// The four lines of a word that ask for the event with these tables.
fn word_wish(event: Tables, word: u32) -> u32
    ensures { (result ≡ word_wish event.upper event.lower word) × (result < 16) }
{
    let high = word / 65536;
    let low = word % 65536;
    covers_wish(high, event.upper) * 8
        + covers_wish(high, event.lower) * 4
        + covers_wish(low, event.upper) * 2
        + covers_wish(low, event.lower)
}

// The lines of eight words that ask for the event with these tables.
fn gather_wish(words: &[u32], event: Tables) -> u32
    requires { length words.now ≡ 8 }
    ensures { result ≡ wish_from event.upper event.lower words.now 0 }
{
    let mut wish: u32 = 0;
    for word in words {
        wish = wish * 16 + word_wish(event, *word);
    }
    wish
}

// The description that writes these words, if an accepted one does.
pub fn read_edge(words: &[u32]) -> Option<Edge>
    ensures value { result ≡ read_edge words.now }
    ensures meaning { ReadMeans words.now result }
    ensures read_numbered { ReadNumbered Accepted words_of words.now (read_number result) (read_place result) }
{
    if words.len() != 8 {
        return None;
    }
    let e = Edge {
        rise: gather_wish(words, RISE),
        fall: gather_wish(words, FALL),
        neither: gather_wish(words, NEITHER),
    };
    let writes = edge_accepted(e)
        && compare::same_words(words, &edge_words(e.rise, e.fall, e.neither));
    writes.then_some(e)
}
