//! A cursor over the values of a column of deltas. It takes no memory.
ghost use Rattle.std.specs.Prelude.{◌≡◌, ◌<◌, ◌≤◌, ◌++◌, ◌∷◌, [], ℤ, List, Option, None, length, drop, IfOk, IfSome, IfNone, OnErr};
ghost use Rattle.am_delta.specs.Deltas.{JoinsDeltas, AllBetween, AllFit, sums_from, stretch};

use crate::arithmetic::sum_of;
use crate::between::stays_between;
use crate::fault::BadDelta;
use crate::skipping::{sum_behind, value_after};
use am_runs::SignedCursor;
use std::marker::Model;

/// The values of a column, one after another.
#[derive(Drop)]
pub struct DeltaCursor<'a> {
    differences: SignedCursor<'a>,
    value: i64,
}

impl<'a> Model for DeltaCursor<'a> {
    ghost use Rattle.std.specs.Prelude.{ℤ, List, Option};

    ghost Value = { List (Option ℤ) };

    ghost use Rattle.am_delta.specs.Deltas.{sums_from, AllFit};

    ghost view = { λ a. sums_from a.value a.differences };

    ghost invariant = { λ a. AllFit (sums_from a.value a.differences) };
}

impl<'a> DeltaCursor<'a> {
    /// A cursor before the first of the values that the bytes join, nulls among them. `most` bounds how many there may be,
    /// `low` and `high` each that isn't null; `BadDelta` where the bytes join no such list.
    pub fn over(bytes: &'a [u8], most: u64, low: i64, high: i64) -> Result<Self, BadDelta>
        ensures ok { IfOk result (λ values. JoinsDeltas bytes.now values × (length values ≤ most) × AllBetween low high values) }
        ensures err { OnErr result ((values : List (Option ℤ)) → JoinsDeltas bytes.now values → length values ≤ most → AllBetween low high values → ⊥) }
    {
        match SignedCursor::over(bytes, most) {
            Err(_) => Err(BadDelta),
            Ok(differences) => {
                if stays_between(differences.again(), low, high) {
                    Ok(DeltaCursor {
                        differences,
                        value: 0,
                    })
                } else {
                    Err(BadDelta)
                }
            }
        }
    }

    /// The cursor before the first of so many values, which the bytes are known to join. Nothing is read.
    pub fn spelled(bytes: &'a [u8], count: u64) -> Self
        requires { (values : List (Option ℤ)) × JoinsDeltas bytes.now values × (length values ≡ count) × AllFit values }
        ensures spelled { JoinsDeltas bytes.now result }
        ensures count { length result ≡ count }
    {
        let differences = SignedCursor::spelled(bytes, count);
        DeltaCursor {
            differences,
            value: 0,
        }
    }

    /// How many values are left.
    pub fn left(&self) -> u64
        ensures { result ≡ length self.now }
    {
        self.differences.left()
    }

    /// The same cursor again.
    pub fn again(&self) -> Self
        ensures { result ≡ self.now }
    {
        DeltaCursor {
            differences: self.differences.again(),
            value: self.value,
        }
    }

    /// Leaves out the next n values, or all where fewer are left. A run costs one step, however many it has.
    pub fn skip(&mut self, n: u64)
        ensures { self.new ≡ drop n self.old }
    {
        self.value = sum_behind(&mut self.differences, self.value, n);
    }

    // The differences that are left, and the value that they go on from.
    pub(crate) fn parts(&self) -> (SignedCursor<'a>, i64)
        ensures fit { AllFit (sums_from result.1 result.0) }
        ensures values { self.now ≡ sums_from result.1 result.0 }
    {
        (self.differences.again(), self.value)
    }

    // The cursor over the values of these differences, on from this value.
    pub(crate) fn from_parts(differences: SignedCursor<'a>, value: i64) -> Self
        requires { AllFit (sums_from value differences) }
        ensures { result ≡ sums_from value differences.entry }
    {
        DeltaCursor { differences, value }
    }

    /// The next values, at most so many, where each is as far above the one before it: the first, the difference and how
    /// many. Nulls come without a difference.
    pub fn next_stretch(&mut self, most: u64) -> Option<(Option<i64>, Option<i64>, u64)>
        requires some { 0 < most }
        ensures end { IfNone result ((self.old ≡ []) × (self.new ≡ [])) }
        ensures next { IfSome result (λ r. (1 ≤ r.2) × (r.2 ≤ most) × (r.0 ≡ None → r.1 ≡ None) × (self.old ≡ stretch r.0 r.1 r.2 ++ self.new)) }
    {
        match self.differences.next_alike_within(most) {
            None => None,
            Some((None, count)) => Some((None, None, count)),
            Some((Some(difference), count)) => {
                let first = sum_of(self.value, difference);
                self.value = value_after(first, Some(difference), count - 1);
                Some((Some(first), Some(difference), count))
            }
        }
    }

    /// The next value, which may be null; nothing at the end.
    pub fn next(&mut self) -> Option<Option<i64>>
        ensures end { IfNone result ((self.old ≡ []) × (self.new ≡ [])) }
        ensures next { IfSome result (λ value. self.old ≡ value ∷ self.new) }
    {
        match self.differences.next() {
            None => None,
            Some(None) => Some(None),
            Some(Some(difference)) => {
                let value = sum_of(self.value, difference);
                self.value = value;
                Some(Some(value))
            }
        }
    }
}
