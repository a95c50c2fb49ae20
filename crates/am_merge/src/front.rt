//! Names, most of which are told apart by their first bytes.
ghost use Rattle.std.specs.Prelude.{◌≡◌, get_or};
ghost use Rattle.am_types.specs.Order.{bytes_cmp};
ghost use Rattle.am_merge.specs.Fronts.{front_of};

use am_types::slice_known;
use std::cmp::Ordering;

// How many bytes make a front.
const WIDTH: usize = 16;

// The byte at this place; behind the last there are zeros.
fn byte_at(bytes: &[u8], i: usize) -> u8
    ensures { result ≡ get_or bytes.now i 0 }
{
    if i < bytes.len() {
        return bytes[i];
    }
    0
}

/// The first 16 bytes of a name as one number.
pub fn front(bytes: &[u8]) -> u128
    ensures { result ≡ front_of bytes.now }
{
    let mut word: u128 = 0;
    for i in 0..WIDTH {
        word = word * 256 + byte_at(bytes, i) as u128;
    }
    word
}

/// The order of two names that have one front.
pub fn compare_behind(a: &str, b: &str) -> Ordering
    requires { front_of a.now ≡ front_of b.now }
    ensures { result ≡ bytes_cmp a.now b.now }
{
    slice_known(a.as_bytes());
    slice_known(b.as_bytes());
    if a.len() <= WIDTH && b.len() <= WIDTH {
        return a.len().cmp(&b.len());
    }
    a.cmp(b)
}
