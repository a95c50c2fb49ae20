//! What an item spells.
ghost use Rattle.std.specs.Prelude.{◌≡◌, ◌<◌, ◌≤◌, length, take, IfSome, IfNone, IsSome, IsTrue, IsUtf8, true, false};
ghost use Rattle.std.specs.Option.{option_map};
ghost use Rattle.std.specs.Str.{is_utf8, IsAscii};
ghost use Rattle.am_leb.specs.Reading.{low_value};
ghost use Rattle.am_runs.specs.Items.{IsItem, text_end, text_of};

use am_leb::read_u;
use std::str::{from_utf8, from_utf8_unchecked};

// Up to so many bytes are looked at one by one.
const FEW: usize = 16;

/// The signed number of one byte.
#[inline(always)]
pub fn low_number(low: u8) -> i64
    requires { low < 128 }
    ensures { result ≡ low_value low }
{
    if low < 64 {
        i64::from(low)
    } else {
        i64::from(low) - 128
    }
}

// Whether the bytes are few, as those of names mostly are, and each is ASCII.
fn are_few_ascii(bytes: &[u8]) -> bool
    ensures { IsTrue result → IsAscii bytes.now }
{
    if bytes.len() > FEW {
        return false;
    }
    for byte in bytes {
        if *byte >= 128 {
            return false;
        }
    }
    true
}

// The text of bytes that are known to be UTF-8.
#[inline(always)]
fn known_text<'a>(bytes: &'a [u8]) -> &'a str
    requires { IsUtf8 bytes.now }
    ensures { result.now ≡ bytes.now }
{
    unsafe { from_utf8_unchecked(bytes) }
}

// The bytes as a text, if they are UTF-8.
fn text_over<'a>(bytes: &'a [u8]) -> Option<&'a str>
    ensures some { IfSome result (λ text. (text.now ≡ bytes.now) × (is_utf8 bytes.now ≡ true)) }
    ensures none { IfNone result (is_utf8 bytes.now ≡ false) }
{
    if are_few_ascii(bytes) {
        return Some(known_text(bytes));
    }
    match from_utf8(bytes) {
        Ok(text) => Some(text),
        Err(_) => None,
    }
}

/// The text that begins the bytes, behind its length, and how many bytes the two take.
#[inline(always)]
pub fn text_at<'a>(bytes: &'a [u8]) -> Option<(&'a str, usize)>
    ensures end { option_map (λ r. r.1) result ≡ text_end bytes.now }
    ensures value { IfSome result (λ r. r.0.now ≡ text_of (take r.1 bytes.now)) }
    ensures within { IfSome result (λ r. r.1 ≤ length bytes.now) }
{
    match read_u(bytes) {
        Err(_) => None,
        Ok((n, len)) => {
            let rest = &bytes[len..];
            if n > rest.len() as u64 {
                return None;
            }
            let n = n as usize;
            match text_over(&rest[..n]) {
                None => None,
                Some(text) => Some((text, len + n)),
            }
        }
    }
}

/// The same where a text is known to begin the bytes. It isn't judged again.
#[inline(always)]
pub fn known_text_at<'a>(bytes: &'a [u8]) -> Option<(&'a str, usize)>
    requires { IsSome (text_end bytes.now) }
    ensures end { option_map (λ r. r.1) result ≡ text_end bytes.now }
    ensures value { IfSome result (λ r. r.0.now ≡ text_of (take r.1 bytes.now)) }
    ensures within { IfSome result (λ r. r.1 ≤ length bytes.now) }
{
    match read_u(bytes) {
        Err(_) => None,
        Ok((n, len)) => {
            let end = len + n as usize;
            Some((known_text(&bytes[len..end]), end))
        }
    }
}

/// The text of an item.
pub fn text_in<'a>(item: &'a [u8]) -> &'a str
    requires { IsItem text_end item.now }
    ensures { result.now ≡ text_of item.now }
{
    match read_u(item) {
        Ok((_, len)) => known_text(&item[len..]),
        Err(_) => "",
    }
}
