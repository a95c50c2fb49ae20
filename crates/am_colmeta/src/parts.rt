//! The parts of lists: numbers, pairs of numbers, and bytes behind their length.
ghost use Rattle.std.specs.Prelude.{◌≡◌, ◌<◌, ◌^◌, ℕ, List};
ghost use Rattle.std.specs.Option.{option_map, IfSome};
ghost use Rattle.am_colmeta.specs.Reading.{first_number, first_pair, first_prefixed, behind};

use am_leb::read_u;

// The bytes behind so many parts, each of which the named function reads.
macro_rules! behind {
    ($part:ident, $bytes:ident, $count:ident) => {{
        let mut rest = $bytes;
        let mut left = $count;
        while left > 0 {
            let (_, more) = $part(rest)?;
            rest = more;
            left -= 1;
        }
        Some(rest)
    }};
}

// The number that stands first, of any length, and the bytes behind it.
fn longer_number_at<'a>(bytes: &'a [u8]) -> Option<(u64, &'a [u8])>
    ensures read { option_map {U = ℕ × List ℕ} (λ found. (found.0, found.1.now)) result ≡ first_number bytes.now }
    ensures fits { IfSome result (λ found. found.0 < 2 ^ 64) }
{
    match read_u(bytes) {
        Err(_) => None,
        Ok((number, size)) => {
            let (_, rest) = bytes.split_at(size);
            Some((number, rest))
        }
    }
}

// The same. Nearly all numbers have one byte, which is read at once.
#[inline(always)]
pub fn number_at<'a>(bytes: &'a [u8]) -> Option<(u64, &'a [u8])>
    ensures read { option_map {U = ℕ × List ℕ} (λ found. (found.0, found.1.now)) result ≡ first_number bytes.now }
    ensures fits { IfSome result (λ found. found.0 < 2 ^ 64) }
{
    if let Some((first, rest)) = bytes.split_first() {
        if *first < 128 {
            return Some((u64::from(*first), rest));
        }
    }
    longer_number_at(bytes)
}

// A specification and a length, and the bytes behind them.
#[inline(always)]
pub fn pair_at<'a>(bytes: &'a [u8]) -> Option<((u64, u64), &'a [u8])>
    ensures read { option_map {U = (ℕ × ℕ) × List ℕ} (λ found. (found.0, found.1.now)) result ≡ first_pair bytes.now }
    ensures fits { IfSome result (λ found. (found.0.0 < 2 ^ 64) × (found.0.1 < 2 ^ 64)) }
{
    let (specification, rest) = number_at(bytes)?;
    let (length, rest) = number_at(rest)?;
    Some(((specification, length), rest))
}

// Bytes that stand behind their length, and the bytes behind them.
#[inline(always)]
pub fn prefixed_at<'a>(bytes: &'a [u8]) -> Option<(&'a [u8], &'a [u8])>
    ensures { option_map {U = List ℕ × List ℕ} (λ found. (found.0.now, found.1.now)) result ≡ first_prefixed bytes.now }
{
    let (length, rest) = number_at(bytes)?;
    if length <= rest.len() as u64 {
        Some(rest.split_at(length as usize))
    } else {
        None
    }
}

// The bytes behind so many specifications and lengths.
pub fn behind_pairs<'a>(bytes: &'a [u8], count: u64) -> Option<&'a [u8]>
    ensures { option_map (λ rest. rest.now) result ≡ behind first_pair count bytes.now }
{
    behind!(pair_at, bytes, count)
}

// The bytes behind so many that each stand behind their length.
pub fn behind_prefixed<'a>(bytes: &'a [u8], count: u64) -> Option<&'a [u8]>
    ensures { option_map (λ rest. rest.now) result ≡ behind first_prefixed count bytes.now }
{
    behind!(prefixed_at, bytes, count)
}
