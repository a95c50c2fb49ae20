//! Whether sums stay between two bounds, judged run by run.
ghost use Rattle.std.specs.Prelude.{◌≡◌, ◌≤◌, ℤ, ◌≤ℤ◌, ◌+ℤ◌, ◌*ℤ◌, Some, IfSome, IfNone, pos, ◌↔◌, IsTrue, replicate};
ghost use Rattle.am_delta.specs.Deltas.{AllBetween, sums_from, sum_after, stretch};

use crate::arithmetic::{narrow, times};
use am_runs::SignedCursor;

// The sum after so many steps, if that is between.
fn end_between(value: i64, difference: i64, k: u64, low: i64, high: i64) -> Option<i64>
    ensures some { IfSome result (λ end. (end ≡ value +ℤ pos k *ℤ difference) × (low ≤ℤ end) × (end ≤ℤ high)) }
    ensures none { IfNone result (low ≤ℤ (value +ℤ pos k *ℤ difference) → (value +ℤ pos k *ℤ difference) ≤ℤ high → ⊥) }
{
    match times(k, difference) {
        None => None,
        Some(way) => match i128::from(value).checked_add(way) {
            None => None,
            Some(end) => {
                if end < i128::from(low) {
                    return None;
                }
                if end > i128::from(high) {
                    return None;
                }
                Some(narrow(end))
            }
        },
    }
}

// The sum after one step, if that is between.
fn next_between(value: i64, difference: i64, low: i64, high: i64) -> Option<i64>
    ensures some { IfSome result (λ end. (end ≡ value +ℤ pos 1 *ℤ difference) × (low ≤ℤ end) × (end ≤ℤ high)) }
    ensures none { IfNone result (low ≤ℤ (value +ℤ pos 1 *ℤ difference) → (value +ℤ pos 1 *ℤ difference) ≤ℤ high → ⊥) }
{
    match value.checked_add(difference) {
        None => None,
        Some(end) => {
            if end < low || end > high {
                return None;
            }
            Some(end)
        }
    }
}

fn number_between(value: i64, difference: i64, k: u64, low: i64, high: i64) -> Option<i64>
    requires { 1 ≤ k }
    ensures some { IfSome result (λ end. (end ≡ value +ℤ pos k *ℤ difference) × AllBetween low high (sums_from value (replicate k (Some difference)))) }
    ensures none { IfNone result (AllBetween low high (sums_from value (replicate k (Some difference))) → ⊥) }
{
    match next_between(value, difference, low, high) {
        None => None,
        Some(first) => {
            if k == 1 {
                return Some(first);
            }
            match end_between(value, difference, k, low, high) {
                None => None,
                Some(end) => Some(end),
            }
        }
    }
}

// The sum after k times this difference, if each sum on the way is between.
fn all_between(value: i64, difference: Option<i64>, k: u64, low: i64, high: i64) -> Option<i64>
    requires { 1 ≤ k }
    ensures some { IfSome result (λ end. (end ≡ sum_after value difference k) × AllBetween low high (sums_from value (replicate k difference))) }
    ensures none { IfNone result (AllBetween low high (sums_from value (replicate k difference)) → ⊥) }
{
    match difference {
        None => Some(value),
        Some(difference) => number_between(value, difference, k, low, high),
    }
}

// Whether each value of a stretch, the first among them, is null or from low to high.
fn is_between_from(first: i64, difference: Option<i64>, count: u64, low: i64, high: i64) -> bool
    ensures { IsTrue result ↔ AllBetween low high (stretch (Some first) difference count) }
{
    if first < low {
        return false;
    }
    if first > high {
        return false;
    }
    if count <= 1 {
        return true;
    }
    match all_between(first, difference, count - 1, low, high) {
        None => false,
        Some(_) => true,
    }
}

/// Whether each value of a stretch that isn't null is from low to high. It costs a few steps, however many they are.
pub fn is_stretch_between(
    first: Option<i64>,
    difference: Option<i64>,
    count: u64,
    low: i64,
    high: i64,
) -> bool
    ensures { IsTrue result ↔ AllBetween low high (stretch first difference count) }
{
    match first {
        None => true,
        Some(first) => is_between_from(first, difference, count, low, high),
    }
}

/// Whether each sum of the differences is from low to high.
pub fn stays_between(mut differences: SignedCursor<'_>, low: i64, high: i64) -> bool
    ensures { IsTrue result ↔ AllBetween low high (sums_from (pos 0) differences.entry) }
{
    let mut value = 0i64;
    while let Some((difference, k)) = differences.next_alike_within(u64::MAX) {
        match all_between(value, difference, k, low, high) {
            None => return false,
            Some(end) => value = end,
        }
    }
    true
}
