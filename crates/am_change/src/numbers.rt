//! The parts that stand first in bytes: numbers, bytes behind their length, and hashes behind their number.
ghost use Rattle.std.specs.Prelude.{◌≡◌, ◌<◌, ◌≤◌, ◌*◌, ◌^◌, ◌++◌, ℕ, ℤ, List, length, IfSome, IsSomeAnd, FitsSigned};
ghost use Rattle.std.specs.Int.{w64};
ghost use Rattle.std.specs.List.{flat_map, AllByRecursion};
ghost use Rattle.am_types.specs.declared.Hash.{Hash};
ghost use Rattle.am_leb.specs.Leb.{uleb, leb};
ghost use Rattle.am_colmeta.specs.Actors.{prefixed};
ghost use Rattle.am_change.specs.Contents.{hashes_bytes};
ghost use Rattle.am_change.specs.Fronts.{Has32};
ghost use Rattle.am_change.specs.Building.{hashes_in};

use am_leb::{one_signed_spelling, one_spelling, read_i, read_u};

// The unsigned number that stands first, and the bytes behind it.
pub fn number_at(bytes: &[u8]) -> Option<(u64, &[u8])>
    ensures some { IfSome result (λ r. (bytes.now ≡ uleb r.0 ++ r.1.now) × (r.0 < 2 ^ 64)) }
    ensures only { (n : ℕ) (rest : List ℕ) → n < 2 ^ 64 → bytes.now ≡ uleb n ++ rest → IsSomeAnd result (λ r. (r.0 ≡ n) × (r.1.now ≡ rest)) }
{
    one_spelling();
    let Ok((number, size)) = read_u(bytes) else {
        return None;
    };
    let (_, rest) = bytes.split_at(size);
    Some((number, rest))
}

// The signed number that stands first, and the bytes behind it.
pub fn signed_at(bytes: &[u8]) -> Option<(i64, &[u8])>
    ensures some { IfSome result (λ r. (bytes.now ≡ leb r.0 ++ r.1.now) × FitsSigned w64 r.0) }
    ensures only { (z : ℤ) (rest : List ℕ) → FitsSigned w64 z → bytes.now ≡ leb z ++ rest → IsSomeAnd result (λ r. (r.0 ≡ z) × (r.1.now ≡ rest)) }
{
    one_signed_spelling();
    let Ok((number, size)) = read_i(bytes) else {
        return None;
    };
    let (_, rest) = bytes.split_at(size);
    Some((number, rest))
}

// The bytes that stand first behind their length, and the bytes behind them.
pub fn prefixed_at(bytes: &[u8]) -> Option<(&[u8], &[u8])>
    ensures some { IfSome result (λ r. (bytes.now ≡ prefixed r.0.now ++ r.1.now) × (length r.0.now < 2 ^ 64)) }
    ensures only { (text : List ℕ) (rest : List ℕ) → length text < 2 ^ 64 → bytes.now ≡ prefixed text ++ rest → IsSomeAnd result (λ r. (r.0.now ≡ text) × (r.1.now ≡ rest)) }
{
    let (count, body) = number_at(bytes)?;
    if count > body.len() as u64 {
        return None;
    }
    Some(body.split_at(count as usize))
}

// How many hashes stand first behind their number, their bytes, and the bytes behind them.
pub fn hashes_at(bytes: &[u8]) -> Option<(u64, &[u8], &[u8])>
    ensures some { IfSome result (λ r. (bytes.now ≡ hashes_bytes (hashes_in r.0 r.1.now) ++ r.2.now) × (length r.1.now ≡ 32 * r.0) × (r.0 < 2 ^ 64)) }
    ensures only { (hashes : List Hash) (rest : List ℕ) → AllByRecursion Has32 hashes → length hashes < 2 ^ 64 → bytes.now ≡ hashes_bytes hashes ++ rest
        → IsSomeAnd result (λ r. (hashes_in r.0 r.1.now ≡ hashes) × (r.2.now ≡ rest)) }
{
    let (count, body) = number_at(bytes)?;
    if count > body.len() as u64 / 32 {
        return None;
    }
    let (hashes, rest) = body.split_at(count as usize * 32);
    Some((count, hashes, rest))
}
