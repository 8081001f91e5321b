// Whether two parts have the same bytes.
ghost use Rattle.std.specs.Prelude.{◌≡◌, length};
ghost use Rattle.compare.specs.Same.{same};

use peek::{prefix, suffix};

// Whether eight bytes are the same as eight others. All eight are looked at, so that the machine looks at them at once.
fn eight_same(a: &[u8], b: &[u8]) -> bool
    requires { (length a.now ≡ 8) × (length b.now ≡ 8) }
    ensures { result ≡ same a.now b.now }
{
    let mut all = true;
    let mut i: usize = 8;
    while 0 < i {
        i -= 1;
        all = (a[i] == b[i]) & all;
    }
    all
}

// The same of any bytes, one after the other.
fn each_same(a: &[u8], b: &[u8]) -> bool
    requires { length a.now ≡ length b.now }
    ensures { result ≡ same a.now b.now }
{
    let mut i = 0;
    while i < a.len() {
        if a[i] != b[i] {
            return false;
        }
        i += 1;
    }
    true
}

// Whether two parts have the same bytes. From 8 to 16 of them, as a label or a description has, are the first eight and
// the last eight: no test for each byte, which would be mispredicted.
pub fn same_bytes(a: &[u8], b: &[u8]) -> bool
    ensures { result ≡ same a.now b.now }
{
    if a.len() != b.len() {
        return false;
    }
    if a.len() < 8 || 16 < a.len() {
        return each_same(a, b);
    }
    let last = a.len() - 8;
    let first_same = eight_same(prefix(a, 8), prefix(b, 8));
    first_same & eight_same(suffix(a, last), suffix(b, last))
}
