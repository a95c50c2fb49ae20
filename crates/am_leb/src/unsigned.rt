//! Unsigned numbers.
ghost use Rattle.std.specs.Prelude.{◌≡◌, ◌<◌, ◌≤◌, ◌^◌, ◌++◌, ◌∷◌, [], ◌↔◌, ◌⊎◌, ℕ, List, length, take, All, IfNone, IfOk, IfSome, OnOk, OnErr};
ghost use Rattle.am_leb.specs.Leb.{uleb, unsigned_value, IsHigh, IsUleb, BeginsWith};
ghost use Rattle.am_leb.specs.Reading.{first_unsigned};

use crate::fault::LebFault;
use crate::spelling::{end_of, low_byte, spelling_at};
use std::alloc::AllocError;

fn unsigned_of(spelling: &[u8]) -> u128
    requires { length spelling.now ≤ 10 }
    ensures { result ≡ unsigned_value spelling.now }
{
    let mut value = 0u128;
    for i in (0..spelling.len()).rev() {
        value = u128::from(spelling[i] % 128) + 128 * value;
    }
    value
}

// How many bytes the shortest spelling takes.
pub(crate) fn unsigned_len(n: u64) -> usize
    ensures { result ≡ length (uleb n) }
{
    let mut rest = n;
    let mut len = 1;
    while rest >= 128 {
        rest /= 128;
        len += 1;
    }
    len
}

// The number that stands first, of any length, or the fault.
fn number_at(bytes: &[u8]) -> Result<(u64, usize), LebFault>
    ensures { result ≡ first_unsigned bytes.now }
{
    let len = end_of(bytes)?;
    let value = unsigned_of(&bytes[..len]);
    if value >= 1 << 64 {
        return Err(LebFault::Large);
    }
    let value = value as u64;
    if unsigned_len(value) < len {
        return Err(LebFault::Long);
    }
    Ok((value, len))
}

// The same, with numbers that end within nine bytes read in one pass.
fn longer_number(bytes: &[u8]) -> Result<(u64, usize), LebFault>
    ensures { result ≡ first_unsigned bytes.now }
{
    if let Some(spelling) = spelling_at(bytes) {
        // Else a shorter list spells it.
        if spelling.value >= spelling.bound / 128 {
            return Ok((spelling.value, spelling.len));
        }
    }
    number_at(bytes)
}

// The same, with numbers of one byte read at once.
#[inline(always)]
fn first_number(bytes: &[u8]) -> Result<(u64, usize), LebFault>
    ensures { result ≡ first_unsigned bytes.now }
{
    match low_byte(bytes) {
        Some(low) => Ok((u64::from(low), 1)),
        None => longer_number(bytes),
    }
}

/// The unsigned number that stands first in the bytes, and how many bytes it takes there. Where none does, a `LebFault`
/// says why.
#[inline(always)]
pub fn read_u(bytes: &[u8]) -> Result<(u64, usize), LebFault>
    ensures found { IfOk result (λ r. (r.0 < 2 ^ 64) × (r.1 ≤ length bytes.now) × IsUleb (take r.1 bytes.now) r.0) }
    ensures only { (n : ℕ) (rest : List ℕ) → n < 2 ^ 64 → bytes.now ≡ uleb n ++ rest → result ≡ Ok (n, length (uleb n)) }
    ensures short { (result ≡ Err LebFault.Short) ↔ ((length bytes.now < 10) × All (λ b. 128 ≤ b) bytes.now) }
    ensures long { (result ≡ Err LebFault.Long) ↔ BeginsWith bytes.now (λ s. (unsigned_value s < 2 ^ 64) × (¬ IsUleb s (unsigned_value s))) }
    ensures large { (result ≡ Err LebFault.Large)
        ↔ (((10 ≤ length bytes.now) × All (λ b. 128 ≤ b) (take 10 bytes.now)) ⊎ BeginsWith bytes.now (λ s. 2 ^ 64 ≤ unsigned_value s)) }
    // The same as one function of the bytes, for the crates whose definitions read numbers.
    ensures exact { result ≡ first_unsigned bytes.now }
{
    first_number(bytes)
}

// The same as `push_u`, of a number of any length.
fn push_longer(out: &mut Vec<u8>, n: u64) -> Result<(), AllocError>
    ensures ok { OnOk result (out.new.items ≡ out.old.items ++ uleb n) }
    ensures err { OnErr result (out.new.items ≡ out.old.items) }
{
    let mut spelling = [0u8; 10];
    let mut rest = n;
    let mut len = 0;
    while rest >= 128 {
        spelling[len] = (rest % 128) as u8 + 128;
        rest /= 128;
        len += 1;
    }
    spelling[len] = rest as u8;
    out.extend_from_slice(&spelling[..len + 1])
}

/// Appends the shortest spelling, all of it or, without memory, nothing.
#[inline(always)]
pub fn push_u(out: &mut Vec<u8>, n: u64) -> Result<(), AllocError>
    ensures ok { OnOk result (out.new.items ≡ out.old.items ++ uleb n) }
    ensures err { OnErr result (out.new.items ≡ out.old.items) }
{
    if n < 128 {
        out.push(n as u8)?;
        return Ok(());
    }
    push_longer(out, n)
}

/// The byte that spells a number alone, if one does.
#[inline(always)]
pub fn unsigned_byte(n: u64) -> Option<u8>
    ensures byte { IfSome result (λ byte. uleb n ≡ byte ∷ []) }
    ensures longer { IfNone result (128 ≤ n) }
{
    if n < 128 { Some(n as u8) } else { None }
}

/// Each number has exactly one shortest spelling.
pub fn one_spelling()
    ensures { (n : ℕ) (bytes : List ℕ) → IsUleb bytes n ↔ (bytes ≡ uleb n) }
{}

/// Fewer than ten bytes that all say that more follow are the front of a number's spelling.
pub fn completed()
    ensures { (bytes : List ℕ) → IsHigh bytes → length bytes < 10 → (n : ℕ) × (n < 2 ^ 64) × IsUleb (bytes ++ 1 ∷ []) n }
{}
