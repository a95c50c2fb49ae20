//! A writer of the one canonical spelling.
ghost use Rattle.std.specs.Prelude.{◌≡◌, ◌<◌, ◌≤◌, ◌∷◌, [], ℕ, ℤ, List, Option, Some, None, length, take, drop, replicate, ◌+◌, ◌++◌, ◌^◌, IfOk, IfSome, IfNone, OnOk, OnErr, IsErr, ◌↔◌};
ghost use Rattle.am_delta.specs.Deltas.{CanonDeltas, IsMiddling, less, or_last, steps, AreMiddling, canonical_delta_bytes};
ghost use Rattle.std.specs.Option.{option_map};
ghost use Rattle.am_leb.specs.Leb.{leb};
ghost use Rattle.am_runs.specs.Apart.{Took};

use crate::cursor::DeltaCursor;
use crate::skipping::{sum_behind, value_after};
use am_leb::{push_i, signed_byte};
use am_runs::{RunWriter, SignedItem};
use am_types::Bytes;
use std::alloc::{AllocError, Global};
use std::marker::Model;

fn put(
    differences: &mut RunWriter<SignedItem>,
    item: &mut Vec<u8>,
    difference: Option<i64>,
) -> Result<(), AllocError>
    requires { IfSome differences.old (λ list. length list < 2 ^ 32) }
    ensures { OnOk result (IfSome differences.old (λ list. differences.new ≡ Some (list ++ option_map leb difference ∷ []))) }
{
    match difference {
        None => differences.push(None),
        Some(difference) => {
            if let Some(byte) = signed_byte(difference) {
                if differences.count_byte(byte, 1) {
                    return Ok(());
                }
                return differences.push(Some(&[byte]));
            }
            item.clear();
            push_i(item, difference)?;
            differences.push(Some(item.as_slice()))
        }
    }
}

// Appends the difference so many times.
fn put_alike(
    differences: &mut RunWriter<SignedItem>,
    item: &mut Vec<u8>,
    difference: Option<i64>,
    count: u64,
) -> Result<(), AllocError>
    requires { IfSome differences.old (λ list. length list + count ≤ 2 ^ 32) }
    ensures { OnOk result (IfSome differences.old (λ list. differences.new ≡ Some (list ++ replicate count (option_map leb difference)))) }
{
    match difference {
        None => differences.push_alike(None, count),
        Some(difference) => {
            item.clear();
            push_i(item, difference)?;
            differences.push_alike(Some(item.as_slice()), count)
        }
    }
}

/// The value less the last one that wasn't null.
pub fn difference_to(value: Option<i64>, last: i64) -> Option<i64>
    requires value { IfSome value IsMiddling }
    requires last { IsMiddling last }
    ensures { result ≡ less value last }
{
    match value {
        None => None,
        Some(value) => Some(value - last),
    }
}

/// The value, or in place of a null the last one that wasn't.
pub fn value_or(value: Option<i64>, last: i64) -> i64
    ensures { result ≡ or_last value last }
{
    match value {
        None => last,
        Some(value) => value,
    }
}

/// Writes the values of a column as differences. Once memory was wanted, it is wanted from then on.
#[derive(Drop)]
pub struct DeltaWriter {
    differences: RunWriter<SignedItem>,
    item: Vec<u8>,
    last: i64,
    failed: bool,
}

impl Model for DeltaWriter {
    ghost use Rattle.std.specs.Prelude.{ℤ, List, Option};

    ghost Value = { Option (List (Option ℤ)) };

    ghost use Rattle.am_delta.specs.Deltas.{values_written, IsSumming};

    ghost view = { λ a. values_written a.failed a.differences };

    ghost invariant = { λ a. IsSumming a.failed a.differences a.last };
}

impl DeltaWriter {
    /// A writer of no values, which takes its memory from `alloc`.
    pub fn new(alloc: Global) -> Self
        ensures { result ≡ Some [] }
    {
        DeltaWriter {
            differences: RunWriter::new(alloc),
            item: Vec::new(alloc),
            last: 0,
            failed: false,
        }
    }

    /// Appends a value. An error says that memory was wanted; the writer is of no use then.
    pub fn push(&mut self, value: Option<i64>) -> Result<(), AllocError>
        requires room { IfSome self.old (λ list. length list < 2 ^ 32) }
        requires value { IfSome value IsMiddling }
        ensures failed { IfNone self.old ((self.new ≡ None) × IsErr result) }
        ensures ok { OnOk result (IfSome self.old (λ list. self.new ≡ Some (list ++ value ∷ []))) }
        ensures err { OnErr result (self.new ≡ None) }
    {
        if self.failed {
            return Err(AllocError);
        }
        self.failed = true;
        let difference = difference_to(value, self.last);
        put(&mut self.differences, &mut self.item, difference)?;
        self.last = value_or(value, self.last);
        self.failed = false;
        Ok(())
    }

    // Appends so many values, each this difference above the one before it, from the last one on.
    fn push_steps(&mut self, difference: Option<i64>, count: u64) -> Result<(), AllocError>
        requires room { IfSome self.old (λ list. length list + count ≤ 2 ^ 32) }
        requires values { IfSome self.old (λ list. AreMiddling (steps list difference count)) }
        ensures failed { IfNone self.old ((self.new ≡ None) × IsErr result) }
        ensures ok { OnOk result (IfSome self.old (λ list. self.new ≡ Some (list ++ steps list difference count))) }
        ensures err { OnErr result (self.new ≡ None) }
    {
        if self.failed {
            return Err(AllocError);
        }
        if count == 0 {
            return Ok(());
        }
        self.failed = true;
        put_alike(&mut self.differences, &mut self.item, difference, count)?;
        self.last = value_after(self.last, difference, count);
        self.failed = false;
        Ok(())
    }

    /// Appends so many nulls, as that many pushes, in a few steps.
    pub fn push_nulls(&mut self, count: u64) -> Result<(), AllocError>
        requires room { IfSome self.old (λ list. length list + count ≤ 2 ^ 32) }
        ensures failed { IfNone self.old ((self.new ≡ None) × IsErr result) }
        ensures ok { OnOk result (IfSome self.old (λ list. self.new ≡ Some (list ++ replicate count None))) }
        ensures err { OnErr result (self.new ≡ None) }
    {
        self.push_steps(None, count)
    }

    // Takes values whose differences can be copied at once: those that the cursor goes on by from the last value.
    fn take_differences(&mut self, from: &mut DeltaCursor<'_>, most: u64) -> Result<u64, AllocError>
        requires some { 0 < most }
        requires room { IfSome self.old (λ list. length list + most ≤ 2 ^ 32) }
        requires values { AreMiddling from.old }
        ensures failed { IfNone self.old (self.new ≡ None) }
        ensures few { IfOk result (λ k. k ≤ most) }
        ensures ok { IfOk result (λ k. Took k from.old from.new self.old self.new) }
        ensures err { OnErr result (self.new ≡ None) }
    {
        if self.failed {
            return Err(AllocError);
        }
        let (mut differences, value) = from.parts();
        if self.last != value {
            return Ok(0);
        }
        self.failed = true;
        let k = self.differences.push_next(&differences, most)?;
        let last = sum_behind(&mut differences, value, k);
        *from = DeltaCursor::from_parts(differences, last);
        self.last = last;
        self.failed = false;
        Ok(k)
    }

    // Takes the next values, one at least.
    fn take_some(&mut self, from: &mut DeltaCursor<'_>, most: u64) -> Result<u64, AllocError>
        requires some { 0 < most }
        requires room { IfSome self.old (λ list. length list + most ≤ 2 ^ 32) }
        requires enough { most ≤ length from.old }
        requires values { AreMiddling from.old }
        ensures failed { IfNone self.old (self.new ≡ None) }
        ensures some { IfOk result (λ k. (1 ≤ k) × (k ≤ most)) }
        ensures ok { IfOk result (λ k. Took k from.old from.new self.old self.new) }
        ensures err { OnErr result (self.new ≡ None) }
    {
        let k = self.take_differences(from, most)?;
        if k == most {
            return Ok(k);
        }
        match from.next_stretch(most - k) {
            None => Ok(k),
            Some((first, difference, count)) => {
                self.push(first)?;
                self.push_steps(difference, count - 1)?;
                Ok(k + count)
            }
        }
    }

    /// Takes the next n values out of the cursor, as that many pushes. Values that rise alike cost a few steps, however
    /// many they are; of others the differences are copied together.
    pub fn take(&mut self, from: &mut DeltaCursor<'_>, n: u64) -> Result<(), AllocError>
        requires room { IfSome self.old (λ list. length list + n ≤ 2 ^ 32) }
        requires enough { n ≤ length from.old }
        requires values { AreMiddling from.old }
        ensures failed { IfNone self.old (self.new ≡ None) }
        ensures ok { OnOk result (IfSome self.old (λ list. self.new ≡ Some (list ++ take n from.old))) }
        ensures behind { OnOk result (from.new ≡ drop n from.old) }
        ensures err { OnErr result (self.new ≡ None) }
    {
        let mut left = n;
        while left > 0 {
            left -= self.take_some(from, left)?;
        }
        Ok(())
    }

    /// The canonical spelling of what was pushed. An error says that memory was wanted, now or before.
    pub fn finish(self) -> Result<Bytes, AllocError>
        ensures failed { IfNone self (IsErr result) }
        ensures ok { IfOk result (λ bytes. IfSome self (CanonDeltas bytes)) }
    {
        if self.failed {
            return Err(AllocError);
        }
        self.differences.finish()
    }
}

/// Each list of values above -2^62 and below 2^62 has exactly one canonical spelling.
pub fn one_canonical_spelling()
    ensures { (values : List (Option ℤ)) (bytes : List ℕ) → AreMiddling values → length values ≤ 2 ^ 32 → (CanonDeltas bytes values ↔ (bytes ≡ canonical_delta_bytes values)) }
{}
