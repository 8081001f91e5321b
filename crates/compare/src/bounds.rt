// Whether bytes lie within bounds.
ghost use Rattle.std.specs.Prelude.{◌≡◌, ◌&&◌, leb, length};
ghost use Rattle.compare.specs.Within.{all_within};

use peek::{prefix, suffix};

fn is_within(low: u8, high: u8, b: u8) -> bool
    ensures { result ≡ (leb low b && leb b high) }
{
    if b < low {
        return false;
    }
    b <= high
}

// Whether each of eight bytes is from `low` to `high`. All eight are looked at, so that the machine looks at them at once.
fn eight_within(low: u8, high: u8, bytes: &[u8]) -> bool
    requires { length bytes.now ≡ 8 }
    ensures { result ≡ all_within low high bytes.now }
{
    let mut all = true;
    let mut i: usize = 8;
    while 0 < i {
        i -= 1;
        all = is_within(low, high, bytes[i]) & all;
    }
    all
}

// The same of any bytes, one after the other.
fn each_within(low: u8, high: u8, bytes: &[u8]) -> bool
    ensures { result ≡ all_within low high bytes.now }
{
    let mut i = 0;
    while i < bytes.len() {
        if !is_within(low, high, bytes[i]) {
            return false;
        }
        i += 1;
    }
    true
}

// Whether each byte is from `low` to `high`: the first eight at once.
pub fn all_within(low: u8, high: u8, bytes: &[u8]) -> bool
    ensures { result ≡ all_within low high bytes.now }
{
    let mut from = 0;
    if 8 <= bytes.len() {
        if !eight_within(low, high, prefix(bytes, 8)) {
            return false;
        }
        from = 8;
    }
    each_within(low, high, suffix(bytes, from))
}
