//! Ids of which nobody names the counter.
ghost use Rattle.std.specs.Prelude.{◌≡◌, ◌+◌, ◌≤◌, ◌<◌, ◌∷◌, ℕ, List, Contains, length, take, drop, slice_index, true, false, IfSome, IfNone};
ghost use Rattle.std.specs.List.{AllByRecursion};
ghost use Rattle.std.specs.List.Sorted.{IsSorted};
ghost use Rattle.std.specs.Ordering.{nat_cmp};
ghost use Rattle.am_types.specs.declared.OpId.{OpId};
ghost use Rattle.am_doccols.specs.Skipping.{IsUnnamed};

use am_fields::{IdColumns, Stretch, WholeColumn};

// Whether the counter is among these.
fn is_among(counters: &[u64], counter: u64) -> bool
    requires { IsSorted nat_cmp counters.now }
    ensures found { result ≡ true → Contains counters.now counter }
    ensures none { result ≡ false → Contains counters.now counter → ⊥ }
{
    counters.binary_search(&counter).is_ok()
}

// The least of these counters that is not below `low`.
fn least_from(counters: &[u64], low: u64) -> Option<u64>
    requires { IsSorted nat_cmp counters.now }
    ensures some { IfSome result (λ c. (low ≤ c) × Contains counters.now c × ((x : ℕ) → low ≤ x → x < c → Contains counters.now x → ⊥)) }
    ensures none { IfNone result ((x : ℕ) → low ≤ x → Contains counters.now x → ⊥) }
{
    match counters.binary_search(&low) {
        Ok(_) => Some(low),
        Err(at) => {
            if at < counters.len() {
                Some(counters[at])
            } else {
                None
            }
        }
    }
}

// The least of these counters that is not below `low`, if one is from `low` to `high`.
fn least_within(counters: &[u64], low: u64, high: u64) -> Option<u64>
    requires { IsSorted nat_cmp counters.now }
    ensures some { IfSome result (λ c. (low ≤ c) × Contains counters.now c × ((x : ℕ) → low ≤ x → x < c → Contains counters.now x → ⊥)) }
    ensures none { IfNone result ((x : ℕ) → low ≤ x → x ≤ high → Contains counters.now x → ⊥) }
{
    if counters.is_empty() {
        return None;
    }
    // (beside all of them no search is needed)
    let last = counters.len() - 1;
    if high < counters[0] || counters[last] < low {
        return None;
    }
    match least_from(counters, low) {
        None => None,
        Some(counter) => { if counter <= high { Some(counter) } else { None } }
    }
}

// How many of the next n numbers come before the first that is among these counters, by a search for each.
fn unnamed_one_by_one(numbers: &WholeColumn<'_>, n: u64, counters: &[u64]) -> u64
    requires enough { n ≤ length numbers.now }
    requires sorted { IsSorted nat_cmp counters.now }
    ensures few { result ≤ n }
    ensures unnamed { (j : ℕ) → j < result → Contains counters.now (slice_index numbers.now j) → ⊥ }
    ensures next { result < n → Contains counters.now (slice_index numbers.now result) }
{
    let mut rest = numbers.again();
    for passed in 0..n {
        if is_among(counters, rest.next()) {
            return passed;
        }
    }
    n
}

// How many of the numbers of a stretch come before the first that is among these counters. A search tells where that
// stands if the numbers count up by one.
fn unnamed_within(numbers: &WholeColumn<'_>, stretch: Stretch, counters: &[u64]) -> u64
    requires enough { stretch.count ≤ length numbers.now }
    requires between { (j : ℕ) → j < stretch.count → (stretch.low ≤ slice_index numbers.now j) × (slice_index numbers.now j ≤ stretch.high) }
    requires by_one { stretch.is_by_one ≡ true → (j : ℕ) → j < stretch.count → slice_index numbers.now j ≡ stretch.low + j }
    requires sorted { IsSorted nat_cmp counters.now }
    ensures few { result ≤ stretch.count }
    ensures unnamed { (j : ℕ) → j < result → Contains counters.now (slice_index numbers.now j) → ⊥ }
    ensures next { result < stretch.count → Contains counters.now (slice_index numbers.now result) }
{
    match least_within(counters, stretch.low, stretch.high) {
        None => stretch.count,
        Some(counter) => {
            if !stretch.is_by_one {
                return unnamed_one_by_one(numbers, stretch.count, counters);
            }
            let before = counter - stretch.low;
            if before < stretch.count {
                before
            } else {
                stretch.count
            }
        }
    }
}

/// How many ids come before the first that has one of these counters. A stretch of ids whose counters each differ alike
/// from the one before costs one search at most, unless it doesn't count up by one and one of these counters stands between
/// its ends: then each is searched.
pub fn count_unnamed(ids: &IdColumns<'_>, counters: &[u64]) -> u64
    requires { IsSorted nat_cmp counters.now }
    ensures few { result ≤ length ids.now }
    ensures unnamed { AllByRecursion (IsUnnamed counters.now) (take result ids.now) }
    ensures next { (i : OpId) (rest : List OpId) → drop result ids.now ≡ i ∷ rest → Contains counters.now i.counter }
{
    let all = ids.left();
    if counters.is_empty() {
        return all;
    }
    let mut rest = ids.counters();
    let mut count = 0;
    while count < all {
        let from = rest.again();
        let stretch = rest.next_stretch(all - count);
        let unnamed = unnamed_within(&from, stretch, counters);
        count += unnamed;
        if unnamed < stretch.count {
            return count;
        }
    }
    all
}
