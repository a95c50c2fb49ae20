//! Bytes of actors and names, compared. Most actors that are compared are the same 16 bytes, or differ in the first; most
//! names have few bytes.
ghost use Rattle.std.specs.Prelude.{◌≡◌, length};
ghost use Rattle.am_types.specs.Order.{bytes_cmp};
ghost use Rattle.am_types.specs.Same.{same_bytes};

use std::cmp::Ordering;
use std::simd::prelude::*;

// Sixteen bytes, as long as actors mostly are: these are compared at once.
fn same_sixteen(a: &[u8], b: &[u8]) -> bool
    requires first { length a.now ≡ 16 }
    requires second { length b.now ≡ 16 }
    ensures { result ≡ same_bytes a.now b.now }
{
    u8x16::from_slice(a)
        .simd_ne(u8x16::from_slice(b))
        .to_bitmask()
        == 0
}

/// Whether two actors have the same bytes.
pub fn same_actor(a: &[u8], b: &[u8]) -> bool
    ensures { result ≡ same_bytes a.now b.now }
{
    if a.len() == 16 && b.len() == 16 {
        return same_sixteen(a, b);
    }
    a == b
}

// Few bytes, as names mostly have: one after another.
fn same_few(a: &[u8], b: &[u8]) -> bool
    requires { length a.now ≡ length b.now }
    ensures { result ≡ same_bytes a.now b.now }
{
    let (Some((x, xs)), Some((y, ys))) = (a.split_first(), b.split_first()) else {
        return true;
    };
    if x != y {
        return false;
    }
    same_few(xs, ys)
}

/// Whether the bytes are the same.
pub fn same_bytes(a: &[u8], b: &[u8]) -> bool
    ensures { result ≡ same_bytes a.now b.now }
{
    if a.len() != b.len() {
        return false;
    }
    if a.len() < 16 {
        return same_few(a, b);
    }
    same_actor(a, b)
}

// The order of few bytes: one after another.
fn compare_few(a: &[u8], b: &[u8]) -> Ordering
    ensures { result ≡ bytes_cmp a.now b.now }
{
    match (a.split_first(), b.split_first()) {
        (None, None) => Ordering::Equal,
        (None, Some(_)) => Ordering::Less,
        (Some(_), None) => Ordering::Greater,
        (Some((x, xs)), Some((y, ys))) => match x.cmp(y) {
            Ordering::Less => Ordering::Less,
            Ordering::Equal => compare_few(xs, ys),
            Ordering::Greater => Ordering::Greater,
        },
    }
}

// The order of bytes that begin alike. Actors and hashes that do are mostly the same.
fn compare_alike(a: &[u8], b: &[u8]) -> Ordering
    ensures { result ≡ bytes_cmp a.now b.now }
{
    if a.len() > 32 && b.len() > 32 {
        return a.cmp(b);
    }
    if a.len() >= 16 && same_actor(a, b) {
        return Ordering::Equal;
    }
    compare_few(a, b)
}

/// The order of bytes: one after another, and fewer before those that they begin. Mostly the first tell it.
#[inline(always)]
pub fn compare_bytes(a: &[u8], b: &[u8]) -> Ordering
    ensures { result ≡ bytes_cmp a.now b.now }
{
    match (a.split_first(), b.split_first()) {
        (Some((x, _)), Some((y, _))) => match x.cmp(y) {
            Ordering::Less => Ordering::Less,
            Ordering::Equal => compare_alike(a, b),
            Ordering::Greater => Ordering::Greater,
        },
        _ => compare_few(a, b),
    }
}

/// The order of actors, which is that of their bytes.
#[inline(always)]
pub fn compare_actors(a: &[u8], b: &[u8]) -> Ordering
    ensures { result ≡ bytes_cmp a.now b.now }
{
    compare_bytes(a, b)
}
