// What is wrong with a refused stream, in words: what stands at the place.
// Promises: every call is safe and ends; what does not fit is left out.
// Rests on: text (words), kinds (the item of an address), peek (bytes).
#![tactic(auto)]

mod addresses;
mod stream;

pub use stream::put_stream_detail;
