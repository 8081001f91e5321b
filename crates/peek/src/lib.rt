// Readers of lent bytes: a byte, a number, a part.
// Promises: each is total and equals its definition; what lies past the end counts as 0, or as nothing.
// Rests on: the toolchain's lists alone.
#![tactic(auto)]

mod bytes;
mod fields;

pub use bytes::{byte_at, prefix, suffix, u32_at};
pub use fields::field;
