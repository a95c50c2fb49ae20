//! Bytes that are copied from slice to slice.
ghost use Rattle.std.specs.Prelude.{◌≡◌, ◌≤◌, ◌<◌, length, take};

/// Moves up to `most` bytes from the front of one slice to that of another, and says how many.
pub fn copy_front(from: &[u8], to: &mut [u8], most: usize) -> usize
    requires { 1 ≤ most }
    ensures within { result ≤ length to.new }
    ensures there { result ≤ length from.now }
    ensures some { result ≡ 0 → 0 < length to.new → length from.now ≡ 0 }
    ensures bytes { take result to.new ≡ take result from.now }
{
    let count = from.len().min(to.len()).min(most);
    to[..count].copy_from_slice(&from[..count]);
    count
}
