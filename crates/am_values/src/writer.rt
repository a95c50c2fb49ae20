//! Writing the columns of values.
ghost use Rattle.std.specs.Prelude.{◌≡◌, ◌+◌, ◌<◌, ◌≤◌, ◌^◌, ◌++◌, ◌∷◌, [], Some, None, length, take, drop, replicate, IfOk, IfSome, IfNone, OnOk, OnErr, IsErr, true, false};
ghost use Rattle.am_types.specs.Values.{Good};
ghost use Rattle.am_types.specs.Views.{value_of};
ghost use Rattle.am_values.specs.Columns.{metadata, null_value, given, CanonValues};

use crate::cursor::ValueCursor;
use crate::taking::put_alike;
use am_runs::{RunWriter, UnsignedItem};
use am_types::{Bytes, ValueRef};
use std::alloc::{AllocError, Global};
use std::marker::Model;

// The number that tells the kind and the length of a value.
fn metadata_of(value: ValueRef<'_>) -> u64
    requires { Good (value_of value) }
    ensures { result ≡ metadata (value_of value.entry) }
{
    u64::from(value.kind) + 16 * value.raw.len() as u64
}

// Memory is taken to be wanted until what follows has ended; an error where it was.
fn begin(failed: &mut bool) -> Result<(), AllocError>
    ensures ok { OnOk result ((failed.old ≡ false) × (failed.new ≡ true)) }
    ensures err { OnErr result ((failed.old ≡ true) × (failed.new ≡ true)) }
{
    if *failed {
        return Err(AllocError);
    }
    *failed = true;
    Ok(())
}

/// Writes values into their two columns. A contract sees the values that were pushed, or None once memory was wanted: it
/// answers that from then on.
#[derive(Drop)]
pub struct ValueWriter {
    numbers: RunWriter<UnsignedItem>,
    raw: Vec<u8>,
    item: Vec<u8>,
    failed: bool,
}

impl Model for ValueWriter {
    ghost use Rattle.std.specs.Prelude.{List, Option};
    ghost use Rattle.am_types.specs.declared.RawValue.{RawValue};

    ghost Value = { Option (List RawValue) };

    ghost use Rattle.am_values.specs.Writing.{values_written, IsCollecting};

    ghost view = { λ writer. values_written writer.failed writer.numbers writer.raw.items };

    ghost invariant = { λ writer. IsCollecting writer.failed writer.numbers writer.raw.items };
}

impl ValueWriter {
    /// No values. Nothing is allocated yet.
    pub fn new(alloc: Global) -> Self
        ensures { result ≡ Some [] }
    {
        ValueWriter {
            numbers: RunWriter::new(alloc),
            raw: Vec::new(alloc),
            item: Vec::new(alloc),
            failed: false,
        }
    }

    /// Appends a good value. Fewer than 2^32 were pushed before.
    pub fn push(&mut self, value: ValueRef<'_>) -> Result<(), AllocError>
        requires room { IfSome self.old (λ values. length values < 2 ^ 32) }
        requires good { Good (value_of value) }
        ensures failed { IfNone self.old ((self.new ≡ None) × IsErr result) }
        ensures ok { OnOk result (IfSome self.old (λ values. self.new ≡ Some (values ++ value_of value.entry ∷ []))) }
        ensures err { OnErr result (self.new ≡ None) }
    {
        begin(&mut self.failed)?;
        put_alike(&mut self.numbers, &mut self.item, metadata_of(value), 1)?;
        self.raw.extend_from_slice(value.raw)?;
        self.failed = false;
        Ok(())
    }

    /// Appends the null value so many times, as that many pushes, in a few steps.
    pub fn push_nulls(&mut self, count: u64) -> Result<(), AllocError>
        requires room { IfSome self.old (λ values. length values + count ≤ 2 ^ 32) }
        ensures failed { IfNone self.old ((self.new ≡ None) × IsErr result) }
        ensures ok { OnOk result (IfSome self.old (λ values. self.new ≡ Some (values ++ replicate count null_value))) }
        ensures err { OnErr result (self.new ≡ None) }
    {
        begin(&mut self.failed)?;
        put_alike(&mut self.numbers, &mut self.item, 0, count)?;
        self.failed = false;
        Ok(())
    }

    /// Takes the next n values out of the cursor, as that many pushes, of which a null is one of the null value. The
    /// numbers go by runs, and the raw bytes in one piece.
    pub fn take(&mut self, from: &mut ValueCursor<'_>, n: u64) -> Result<(), AllocError>
        requires room { IfSome self.old (λ values. length values + n ≤ 2 ^ 32) }
        requires enough { n ≤ length from.old }
        ensures failed { IfNone self.old ((self.new ≡ None) × IsErr result) }
        ensures ok { OnOk result (IfSome self.old (λ values. self.new ≡ Some (values ++ given (take n from.old)))) }
        ensures behind { OnOk result (from.new ≡ drop n from.old) }
        ensures err { OnErr result (self.new ≡ None) }
    {
        begin(&mut self.failed)?;
        let raw = from.give(n, &mut self.numbers, &mut self.item)?;
        self.raw.extend_from_slice(raw)?;
        self.failed = false;
        Ok(())
    }

    /// The column of numbers and the column of raw bytes, in their one canonical spelling.
    pub fn finish(self) -> Result<(Bytes, Bytes), AllocError>
        ensures failed { IfNone self (IsErr result) }
        ensures ok { IfOk result (λ columns. IfSome self (CanonValues columns.0 columns.1)) }
    {
        if self.failed {
            return Err(AllocError);
        }
        let numbers = self.numbers.finish()?;
        Ok((numbers, Bytes::from(self.raw)))
    }
}
