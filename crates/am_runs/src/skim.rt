//! Where the numbers of a literal run end, found without reading what they are.
ghost use Rattle.std.specs.Prelude.{◌≡◌, ◌<◌, ◌≤◌, length, take, drop, Some, IfSome, IsTrue};
ghost use Rattle.std.specs.Str.{IsAscii};
ghost use Rattle.am_runs.specs.Walking.{behind_items};

use crate::leb::Number;

// Whether each of the first bytes is a number by itself.
#[inline(always)]
fn are_single(count: u64, bytes: &[u8]) -> bool
    ensures { IsTrue result → (count ≤ length bytes.now) × IsAscii (take count bytes.now) }
{
    if count > bytes.len() as u64 {
        return false;
    }
    bytes[..count as usize].is_ascii()
}

// How many bytes the first numbers take. It gives up at one of more than nine bytes, at one that has a shorter spelling, and where the bytes end. Nothing branches on where a number ends, since that can't be foreseen.
#[inline(always)]
fn skimmed_length<K: Number>(count: u64, bytes: &[u8]) -> Option<usize>
    requires { 0 < count }
    ensures within { IfSome result (λ len. len ≤ length bytes.now) }
    ensures behind { IfSome result (λ len. behind_items K.end_of count bytes.now ≡ Some (drop len bytes.now)) }
{
    let mut left = count;
    let mut start = 0;
    for i in 0..bytes.len() {
        if K::is_spare(bytes, start, i) {
            return None;
        }
        if i - start > 8 {
            return None;
        }
        if bytes[i] < 128 {
            start = i + 1;
            left -= 1;
        }
        if left == 0 {
            return Some(i + 1);
        }
    }
    None
}

/// The bytes behind the first numbers, `count` of them. It may give up.
pub fn skimmed<'a, K: Number>(count: u64, bytes: &'a [u8]) -> Option<&'a [u8]>
    ensures { IfSome result (λ rest. behind_items K.end_of count bytes.now ≡ Some rest.now) }
{
    if count == 0 {
        return None;
    }
    if are_single(count, bytes) {
        return Some(&bytes[count as usize..]);
    }
    match skimmed_length::<K>(count, bytes) {
        Some(len) => Some(&bytes[len..]),
        None => None,
    }
}
