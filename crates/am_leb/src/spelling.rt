//! Where a spelling ends.
ghost use Rattle.std.specs.Prelude.{◌≡◌, ◌<◌, ◌∷◌, drop, IfSome};
ghost use Rattle.am_leb.specs.Reading.{end_within, end_or_fault, Spelled};

use crate::fault::LebFault;

// The length of the spelling that begins the bytes, or the fault where it doesn't end within ten.
pub fn end_of(bytes: &[u8]) -> Result<usize, LebFault>
    ensures { result ≡ end_or_fault bytes.now (end_within 10 bytes.now) }
{
    let most = bytes.len().min(10);
    for i in 0..most {
        if bytes[i] < 128 {
            return Ok(i + 1);
        }
    }
    Err(if bytes.len() < 10 {
        LebFault::Short
    } else {
        LebFault::Large
    })
}

// The byte that begins the bytes, where it is a whole spelling.
#[inline(always)]
pub fn low_byte(bytes: &[u8]) -> Option<u8>
    ensures { IfSome result (λ b. (b < 128) × (bytes.now ≡ b ∷ drop 1 bytes.now)) }
{
    if bytes.is_empty() {
        return None;
    }
    let first = bytes[0];
    if first < 128 { Some(first) } else { None }
}

// A spelling of at most nine bytes: what it spells as unsigned, and the bound that as many bytes stay below.
#[derive(Clone, Copy)]
pub struct Spelling {
    pub value: u64,
    pub bound: u64,
    pub len: usize,
}

// The spelling that begins the bytes, if it has two bytes. It may give up.
#[inline(always)]
fn two_bytes_at(bytes: &[u8]) -> Option<Spelling>
    ensures { IfSome result (λ s. Spelled bytes.now s.len s.value s.bound) }
{
    if bytes.len() < 2 {
        return None;
    }
    let first = bytes[0];
    let second = bytes[1];
    if first < 128 || second >= 128 {
        return None;
    }
    Some(Spelling {
        value: u64::from(first) - 128 + 128 * u64::from(second),
        bound: 16_384,
        len: 2,
    })
}

// The spelling that begins the bytes, if it has at most nine bytes. It may give up.
#[inline(always)]
pub fn spelling_at(bytes: &[u8]) -> Option<Spelling>
    ensures { IfSome result (λ s. Spelled bytes.now s.len s.value s.bound) }
{
    // Most have two bytes: the callers have read those of one.
    if let Some(two) = two_bytes_at(bytes) {
        return Some(two);
    }
    let most = bytes.len().min(9);
    let mut value = 0u64;
    let mut bound = 1u64;
    for i in 0..most {
        let byte = bytes[i];
        value += u64::from(byte % 128) * bound;
        bound *= 128;
        if byte < 128 {
            return Some(Spelling {
                value,
                bound,
                len: i + 1,
            });
        }
    }
    None
}
