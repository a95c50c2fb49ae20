//! Signed numbers. A number is its sign and its magnitude: n, or -1 - n where it is negative.
ghost use Rattle.std.specs.Prelude.{◌≡◌, ◌<◌, ◌≤◌, ◌^◌, ◌++◌, ◌↔◌, ◌⊎◌, ◌∷◌, [], ◌<ℤ◌, ◌≤ℤ◌, neg_ℤ, ℕ, ℤ, pos, List, length, take, All, IfNone, IfOk, IfSome, OnOk, OnErr, FitsSigned};
ghost use Rattle.std.specs.Int.{w64};
ghost use Rattle.am_leb.specs.Leb.{leb, signed_value, ends_negative, seven_bits, IsLeb, BeginsWith};
ghost use Rattle.am_leb.specs.Reading.{first_signed, digit, magnitude, from_magnitude, low_value};

use crate::fault::LebFault;
use crate::spelling::{end_of, low_byte, spelling_at};
use crate::unsigned::unsigned_len;
use std::alloc::AllocError;

fn digit_of(byte: u8, negative: bool) -> u8
    ensures { result ≡ digit negative byte }
{
    if negative {
        127 - byte % 128
    } else {
        byte % 128
    }
}

fn magnitude_of(spelling: &[u8], negative: bool) -> u128
    requires { length spelling.now ≤ 10 }
    ensures { result ≡ magnitude negative spelling.now }
{
    let mut value = 0u128;
    for i in (0..spelling.len()).rev() {
        value = u128::from(digit_of(spelling[i], negative)) + 128 * value;
    }
    value
}

// A magnitude takes as many bytes as its double does without a sign.
fn signed_len(magnitude: u64) -> usize
    requires { magnitude < 2 ^ 63 }
    ensures { result ≡ length (leb (pos magnitude)) }
{
    unsigned_len(2 * magnitude)
}

fn is_negative(spelling: &[u8]) -> bool
    requires { 0 < length spelling.now }
    ensures { result ≡ ends_negative spelling.now }
{
    spelling[spelling.len() - 1] >= 64
}

// The number that stands first, of any length, or the fault.
fn signed_number_at(bytes: &[u8]) -> Result<(i64, usize), LebFault>
    ensures { result ≡ first_signed bytes.now }
{
    let len = end_of(bytes)?;
    let spelling = &bytes[..len];
    let negative = is_negative(spelling);
    let magnitude = magnitude_of(spelling, negative);
    if magnitude >= 1 << 63 {
        return Err(LebFault::Large);
    }
    if signed_len(magnitude as u64) < len {
        return Err(LebFault::Long);
    }
    let value = magnitude as i64;
    Ok((if negative { -1 - value } else { value }, len))
}

// The same, with numbers that end within nine bytes read in one pass.
fn longer_number(bytes: &[u8]) -> Result<(i64, usize), LebFault>
    ensures { result ≡ first_signed bytes.now }
{
    if let Some(spelling) = spelling_at(bytes) {
        let negative = is_negative(&bytes[..spelling.len]);
        let magnitude = if negative {
            spelling.bound - 1 - spelling.value
        } else {
            spelling.value
        };
        // Else a shorter list spells it.
        if magnitude >= spelling.bound / 256 {
            let value = magnitude as i64;
            return Ok((if negative { -1 - value } else { value }, spelling.len));
        }
    }
    signed_number_at(bytes)
}

// The number of one byte.
#[inline(always)]
fn low_number(low: u8) -> i64
    requires { low < 128 }
    ensures { result ≡ low_value low }
{
    if low < 64 {
        i64::from(low)
    } else {
        i64::from(low) - 128
    }
}

// The same, with numbers of one byte read at once.
#[inline(always)]
fn first_number(bytes: &[u8]) -> Result<(i64, usize), LebFault>
    ensures { result ≡ first_signed bytes.now }
{
    match low_byte(bytes) {
        Some(low) => Ok((low_number(low), 1)),
        None => longer_number(bytes),
    }
}

/// The signed number that stands first in the bytes, and how many bytes it takes there. Where none does, a `LebFault`
/// says why.
#[inline(always)]
pub fn read_i(bytes: &[u8]) -> Result<(i64, usize), LebFault>
    ensures found { IfOk result (λ r. FitsSigned w64 r.0 × (r.1 ≤ length bytes.now) × IsLeb (take r.1 bytes.now) r.0) }
    ensures only { (n : ℤ) (rest : List ℕ) → FitsSigned w64 n → bytes.now ≡ leb n ++ rest → result ≡ Ok (n, length (leb n)) }
    ensures short { (result ≡ Err LebFault.Short) ↔ ((length bytes.now < 10) × All (λ b. 128 ≤ b) bytes.now) }
    ensures long { (result ≡ Err LebFault.Long) ↔ BeginsWith bytes.now (λ s. FitsSigned w64 (signed_value s) × (¬ IsLeb s (signed_value s))) }
    ensures large { (result ≡ Err LebFault.Large)
        ↔ (((10 ≤ length bytes.now) × All (λ b. 128 ≤ b) (take 10 bytes.now)) ⊎ BeginsWith bytes.now (λ s. ¬ FitsSigned w64 (signed_value s))) }
    // The same as one function of the bytes, for the crates whose definitions read numbers.
    ensures exact { result ≡ first_signed bytes.now }
{
    first_number(bytes)
}

// The low bits of one byte of a spelling.
fn bits_of(negative: bool, low: u8) -> u8
    requires { low < 128 }
    ensures value { result ≡ seven_bits negative low }
    ensures below { result < 128 }
{
    if negative { 127 - low } else { low }
}

// The same as `push_magnitude`, of a magnitude of any length.
fn push_longer(out: &mut Vec<u8>, negative: bool, magnitude: u64) -> Result<(), AllocError>
    requires { magnitude < 2 ^ 63 }
    ensures ok { OnOk result (out.new.items ≡ out.old.items ++ leb (from_magnitude negative magnitude)) }
    ensures err { OnErr result (out.new.items ≡ out.old.items) }
{
    let mut spelling = [0u8; 10];
    let mut rest = magnitude;
    let mut len = 0;
    while rest >= 64 {
        spelling[len] = bits_of(negative, (rest % 128) as u8) + 128;
        rest /= 128;
        len += 1;
    }
    spelling[len] = bits_of(negative, rest as u8);
    out.extend_from_slice(&spelling[..len + 1])
}

fn push_magnitude(out: &mut Vec<u8>, negative: bool, magnitude: u64) -> Result<(), AllocError>
    requires { magnitude < 2 ^ 63 }
    ensures ok { OnOk result (out.new.items ≡ out.old.items ++ leb (from_magnitude negative magnitude)) }
    ensures err { OnErr result (out.new.items ≡ out.old.items) }
{
    if magnitude < 64 {
        out.push(bits_of(negative, magnitude as u8))?;
        return Ok(());
    }
    push_longer(out, negative, magnitude)
}

/// Appends the shortest spelling, all of it or, without memory, nothing.
pub fn push_i(out: &mut Vec<u8>, n: i64) -> Result<(), AllocError>
    ensures ok { OnOk result (out.new.items ≡ out.old.items ++ leb n) }
    ensures err { OnErr result (out.new.items ≡ out.old.items) }
{
    if n < 0 {
        push_magnitude(out, true, (-1 - n) as u64)
    } else {
        push_magnitude(out, false, n as u64)
    }
}

fn magnitude_byte(negative: bool, magnitude: u64) -> Option<u8>
    requires { magnitude < 2 ^ 63 }
    ensures byte { IfSome result (λ byte. leb (from_magnitude negative magnitude) ≡ byte ∷ []) }
    ensures longer { IfNone result (64 ≤ magnitude) }
{
    if magnitude < 64 {
        Some(bits_of(negative, magnitude as u8))
    } else {
        None
    }
}

/// The byte that spells a signed number alone, if one does.
#[inline(always)]
pub fn signed_byte(n: i64) -> Option<u8>
    ensures byte { IfSome result (λ byte. leb n ≡ byte ∷ []) }
    ensures longer { IfNone result ((n <ℤ neg_ℤ (pos 64)) ⊎ (pos 64 ≤ℤ n)) }
{
    if n < 0 {
        magnitude_byte(true, (-1 - n) as u64)
    } else {
        magnitude_byte(false, n as u64)
    }
}

/// Each signed number has exactly one shortest spelling.
pub fn one_signed_spelling()
    ensures { (n : ℤ) (bytes : List ℕ) → IsLeb bytes n ↔ (bytes ≡ leb n) }
{}
