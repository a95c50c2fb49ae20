//! A cursor over the numbers of a column.
ghost use Rattle.std.specs.Prelude.{◌≡◌, ◌<◌, ◌≤◌, ◌++◌, ◌∷◌, [], ℕ, List, Option, Some, length, map, take, drop, IfOk, IfSome, IfNone, OnErr, replicate};
ghost use Rattle.std.specs.List.{AllByRecursion, flat_map};
ghost use Rattle.std.specs.Option.{option_map};
ghost use Rattle.am_leb.specs.Leb.{signed_value};
ghost use Rattle.am_runs.specs.Items.{IsItem, signed_end};
ghost use Rattle.am_runs.specs.Runs.{JoinsRuns};
ghost use Rattle.am_runs.specs.Typed.{AllItems};

use crate::counters::{Counters, counters_of, runs_from};
use crate::cursor::RunCursor;
use crate::fault::BadRun;
use crate::item::NumberItem;
use crate::leb::{Number, Signed, Unsigned};
use crate::number::{first_of_run, literal_number, number_of};
use std::marker::Model;

/// The numbers of a column, one after another. A contract sees those that are left, a null as None. `K` is `Unsigned`
/// or `Signed`.
#[derive(Drop)]
pub struct NumberCursor<'a, K: Number> {
    at: Counters<'a>,
    // of this there are copies
    value: Option<K::Value>,
}

/// The unsigned numbers of a column, one after another. In its clauses
/// `JoinsRuns K.end_of bytes (map (option_map K.spelling) values)` is `JoinsUnsigned bytes values`.
pub type UnsignedCursor<'a> = NumberCursor<'a, Unsigned>;

/// The signed numbers of a column, one after another. In its clauses
/// `JoinsRuns K.end_of bytes (map (option_map K.spelling) values)` is `JoinsSigned bytes values`.
pub type SignedCursor<'a> = NumberCursor<'a, Signed>;

impl<'a, K: Number> Model for NumberCursor<'a, K> {
    ghost use Rattle.std.specs.Prelude.{ℕ, ℤ, List, Option};

    ghost Value = { List (Option K.Value) };

    ghost use Rattle.am_runs.specs.Counters.{IsCounted, counted, entries_from};

    ghost view = { λ a. counted K.value_of a.at.copies a.value (entries_from K.end_of a.at.literal a.at.left a.at.rest.now) };

    ghost invariant = { λ a. IsCounted K.end_of a.at.copies a.at.literal a.at.left a.at.rest.now };
}

// A cursor over what the entries spell.
fn numbers_of<'a, K: Number>(runs: &RunCursor<'a, NumberItem<K>>) -> NumberCursor<'a, K>
    requires { AllItems K.end_of runs.now }
    ensures { result ≡ map (option_map K.value_of) runs.now }
{
    let (at, entry) = counters_of(runs);
    let value = if at.copies > 0 {
        number_of::<K>(entry)
    } else {
        None
    };
    NumberCursor { at, value }
}

impl<'a, K: Number> NumberCursor<'a, K> {
    /// A cursor before the first of the numbers that the bytes join, nulls among them. `most` bounds how many there may be; `BadRun` where the bytes join no such list, or a longer one.
    pub fn over(bytes: &'a [u8], most: u64) -> Result<Self, BadRun>
        ensures ok { IfOk result (λ values. JoinsRuns K.end_of bytes.now (map (option_map K.spelling) values) × (length values ≤ most)) }
        ensures err { OnErr result ((values : List (Option K.Value)) → JoinsRuns K.end_of bytes.now (map (option_map K.spelling) values) → most < length values) }
    {
        match RunCursor::over(bytes, most) {
            Err(fault) => Err(fault),
            Ok(runs) => Ok(numbers_of(&runs)),
        }
    }

    /// The cursor before the first of so many numbers, which the bytes are known to join. Nothing is read.
    pub fn spelled(bytes: &'a [u8], count: u64) -> Self
        requires { (values : List (Option K.Value)) × JoinsRuns K.end_of bytes.now (map (option_map K.spelling) values) × (length values ≡ count) }
        ensures spelled { JoinsRuns K.end_of bytes.now (map (option_map K.spelling) result) }
        ensures count { length result ≡ count }
    {
        let runs = RunCursor::spelled(bytes, count);
        numbers_of(&runs)
    }

    /// How many numbers are left.
    pub fn left(&self) -> u64
        ensures { result ≡ length self.now }
    {
        self.at.copies + (self.at.literal + self.at.left)
    }

    /// The same cursor again.
    pub fn again(&self) -> Self
        ensures { result ≡ self.now }
    {
        NumberCursor {
            at: self.at,
            value: self.value,
        }
    }

    /// Leaves out the next n numbers, or all where fewer are left. A run costs two steps at most, however many it has; each
    /// item of a literal run is read.
    pub fn skip(&mut self, n: u64)
        ensures { self.new ≡ drop n self.old }
    {
        let mut n = n;
        while n > 0 {
            match self.next_alike_within(n) {
                None => return,
                Some((_, k)) => n -= k,
            }
        }
    }

    /// The next value, and how often it comes next at least. It goes on by none.
    pub fn like(&self) -> Option<(Option<K::Value>, u64)>
        ensures end { IfNone result (self.now ≡ []) }
        ensures like { IfSome result (λ r. (1 ≤ r.1) × (r.1 ≤ length self.now) × (take r.1 self.now ≡ replicate r.1 r.0)) }
    {
        if self.at.copies > 0 {
            return Some((self.value, self.at.copies));
        }
        match runs_from::<NumberItem<K>>(&self.at).like() {
            None => None,
            Some((entry, k)) => Some((number_of::<K>(entry), k)),
        }
    }

    /// The next value, and how many like it come at once, at most so many. A run costs two steps at most.
    #[inline(always)]
    pub fn next_alike_within(&mut self, most: u64) -> Option<(Option<K::Value>, u64)>
        requires some { 0 < most }
        ensures end { IfNone result ((self.old ≡ []) × (self.new ≡ [])) }
        ensures next { IfSome result (λ r. (1 ≤ r.1) × (r.1 ≤ most) × (self.old ≡ replicate r.1 r.0 ++ self.new)) }
    {
        if self.at.copies > 0 {
            let k = self.at.copies.min(most);
            self.at.copies -= k;
            return Some((self.value, k));
        }
        match self.next() {
            None => None,
            Some(value) => Some((value, 1)),
        }
    }

    /// The next number, which may be null; nothing at the end.
    #[inline(always)]
    pub fn next(&mut self) -> Option<Option<K::Value>>
        ensures end { IfNone result ((self.old ≡ []) × (self.new ≡ [])) }
        ensures next { IfSome result (λ value. self.old ≡ value ∷ self.new) }
    {
        if self.at.copies > 0 {
            self.at.copies -= 1;
            return Some(self.value);
        }
        if self.at.literal > 0 {
            return match literal_number::<K>(&mut self.at) {
                None => None,
                Some(n) => Some(Some(n)),
            };
        }
        if self.at.left == 0 {
            return None;
        }
        first_of_run::<K>(&mut self.at, &mut self.value)
    }
}

impl<'a> NumberCursor<'a, Signed> {
    // How many items of a literal run come next, and the bytes that they begin. While there are copies, none does.
    pub(crate) fn literal(&self) -> (u64, &'a [u8])
        ensures { (items : List (List ℕ)) (rest : List ℕ) → AllByRecursion (IsItem signed_end) items → length items ≤ result.0 → result.1.now ≡ flat_map (λ item. item) items ++ rest
            → (length items ≤ length self.now) × (take (length items) self.now ≡ map (option_map signed_value) (map Some items)) }
    {
        if self.at.copies > 0 {
            return (0, self.at.rest);
        }
        (self.at.literal, self.at.rest)
    }
}
