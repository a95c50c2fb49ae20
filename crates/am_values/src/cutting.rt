//! Cutting values out of the raw bytes by their numbers.
ghost use Rattle.std.specs.Prelude.{◌≡◌, ◌≤◌, ◌*◌, ◌%◌, ◌↔◌, Some, length, take, drop, IfSome, IfNone, IsTrue};
ghost use Rattle.am_values.specs.declared.nulls.Nulls.TheVariants.{AreRefused};
ghost use Rattle.am_values.specs.Columns.{NoneNull};
ghost use Rattle.am_values.specs.Cutting.{AreCut, AreAlikeCut, IsCut, width, values_from};

use crate::good::is_good;
use crate::nulls::Nulls;
use am_runs::UnsignedCursor;
use am_types::{kinds, slice_known};

// The first bytes, and those behind them.
pub fn cut<'a>(size: u64, raw: &'a [u8]) -> (&'a [u8], &'a [u8])
    ensures front { result.0.now ≡ take size raw.now }
    ensures back { result.1.now ≡ drop size raw.now }
{
    if size > raw.len() as u64 {
        return (raw, &raw[raw.len()..]);
    }
    (&raw[..size as usize], &raw[size as usize..])
}

// The raw bytes behind the next value, if it stands there and is good.
#[inline(always)]
fn behind<'a>(number: Option<u64>, raw: &'a [u8]) -> Option<&'a [u8]>
    ensures some { IfSome result (λ rest. IsCut number raw.now × (rest.now ≡ drop (width number) raw.now)) }
    ensures none { IfNone result (IsCut number raw.now → ⊥) }
{
    match number {
        None => Some(raw),
        Some(number) => {
            let size = number / 16;
            if size > raw.len() as u64 {
                return None;
            }
            let size = size as usize;
            if is_good((number % 16) as u8, &raw[..size]) {
                Some(&raw[size..])
            } else {
                None
            }
        }
    }
}

// The raw bytes behind so many texts with this number, where all of them are ASCII. It gives up where they aren't.
fn behind_ascii<'a>(number: u64, count: u64, raw: &'a [u8]) -> Option<&'a [u8]>
    requires { number % 16 ≡ 6 }
    ensures { IfSome result (λ rest. AreAlikeCut count (Some number) raw.now × (rest.now ≡ drop (count * width (Some number)) raw.now)) }
{
    slice_known(raw);
    match count.checked_mul(number / 16) {
        None => None,
        Some(size) => {
            if size > raw.len() as u64 {
                return None;
            }
            let (texts, rest) = raw.split_at(size as usize);
            if texts.is_ascii() { Some(rest) } else { None }
        }
    }
}

// The raw bytes behind so many values with this number, of which each is looked at.
fn behind_each<'a>(number: Option<u64>, count: u64, raw: &'a [u8]) -> Option<&'a [u8]>
    ensures some { IfSome result (λ rest. AreAlikeCut count number raw.now × (rest.now ≡ drop (count * width number) raw.now)) }
    ensures none { IfNone result (AreAlikeCut count number raw.now → ⊥) }
{
    let mut rest = raw;
    let mut left = count;
    while left > 0 {
        rest = behind(number, rest)?;
        left -= 1;
    }
    Some(rest)
}

// The same. Values without bytes are judged by the first of them, and texts in ASCII by one look at all.
fn behind_given<'a>(number: u64, count: u64, raw: &'a [u8]) -> Option<&'a [u8]>
    requires { 1 ≤ count }
    ensures some { IfSome result (λ rest. AreAlikeCut count (Some number) raw.now × (rest.now ≡ drop (count * width (Some number)) raw.now)) }
    ensures none { IfNone result (AreAlikeCut count (Some number) raw.now → ⊥) }
{
    if number / 16 == 0 {
        return behind(Some(number), raw);
    }
    if count > 1 && number % 16 == u64::from(kinds::TEXT) {
        if let Some(rest) = behind_ascii(number, count, raw) {
            return Some(rest);
        }
    }
    behind_each(Some(number), count, raw)
}

// The same, where nulls may be, which have no bytes.
fn behind_alike<'a>(number: Option<u64>, count: u64, raw: &'a [u8]) -> Option<&'a [u8]>
    requires { 1 ≤ count }
    ensures some { IfSome result (λ rest. AreAlikeCut count number raw.now × (rest.now ≡ drop (count * width number) raw.now)) }
    ensures none { IfNone result (AreAlikeCut count number raw.now → ⊥) }
{
    match number {
        None => Some(raw),
        Some(number) => behind_given(number, count, raw),
    }
}

// Whether the raw bytes are just those of the values, each value is good, and if nulls are refused none is null. That takes
// time in the bytes of both columns. Texts alike that aren't all ASCII are looked at twice.
pub fn are_cut(mut numbers: UnsignedCursor<'_>, raw: &[u8], nulls: Nulls) -> bool
    ensures { IsTrue result ↔ AreCut numbers.entry raw.now × (nulls ≡ AreRefused → NoneNull numbers.entry) }
{
    let mut rest = raw;
    while let Some((number, count)) = numbers.next_alike_within(u64::MAX) {
        if !nulls.allow(number) {
            return false;
        }
        match behind_alike(number, count, rest) {
            None => return false,
            Some(behind) => rest = behind,
        }
    }
    rest.is_empty()
}

// The raw bytes behind the next values, which are as long as one another.
pub fn past<'a>(number: Option<u64>, count: u64, raw: &'a [u8]) -> &'a [u8]
    requires fits { count * width number ≤ length raw.now }
    ensures behind { result.now ≡ drop (count * width number) raw.now }
{
    match number {
        None => raw,
        Some(number) => cut(count * (number / 16), raw).1,
    }
}

// Leaves out the next numbers, and gives the raw bytes behind their values. It takes a step for each run, or for each
// item where they are listed one by one.
pub fn raw_behind<'a>(numbers: &mut UnsignedCursor<'_>, raw: &'a [u8], n: u64) -> &'a [u8]
    requires { AreCut numbers.old raw.now }
    ensures cut { AreCut numbers.new result.now }
    ensures drops { values_from numbers.new result.now ≡ drop n (values_from numbers.old raw.now) }
{
    let mut rest = raw;
    let mut n = n;
    while n > 0 {
        match numbers.like() {
            None => return rest,
            Some((number, count)) => {
                let step = count.min(n);
                rest = past(number, step, rest);
                numbers.skip(step);
                n -= step;
            }
        }
    }
    rest
}
