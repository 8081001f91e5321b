// Readers of bytes that are total: what lies past the end counts as 0, or as nothing.
ghost use Rattle.std.specs.Prelude.{◌≡◌, get_or, take, drop};
ghost use Rattle.peek.specs.Bytes.{u32_at};

// The byte at an offset, 0 past the end.
pub fn byte_at(bytes: &[u8], at: usize) -> u8
    ensures { result ≡ get_or bytes.now at 0 }
{
    bytes.get(at).copied().unwrap_or(0)
}

// The first n bytes, or all where there are fewer.
pub fn prefix<'a>(bytes: &'a [u8], n: usize) -> &'a [u8]
    ensures { result.now ≡ take n bytes.now }
{
    &bytes[..n.min(bytes.len())]
}

// The bytes from an offset on, none past the end.
pub fn suffix<'a>(bytes: &'a [u8], at: usize) -> &'a [u8]
    ensures { result.now ≡ drop at bytes.now }
{
    &bytes[at.min(bytes.len())..]
}

// The number that four bytes give, least byte first; bytes past the end count as 0.
#[tactic(auto, using(crate::proofs::Numbers::u32_drop), unfolding(crate::specs::Bytes::u32_at))]
pub fn u32_at(bytes: &[u8], at: usize) -> u32
    ensures { result ≡ u32_at bytes.now at }
{
    let rest = suffix(bytes, at);
    u32::from_le_bytes([
        byte_at(rest, 0),
        byte_at(rest, 1),
        byte_at(rest, 2),
        byte_at(rest, 3),
    ])
}
