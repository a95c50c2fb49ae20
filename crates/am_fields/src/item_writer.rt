//! A writer of items and nulls, in their one canonical spelling.
ghost use Rattle.std.specs.Prelude.{◌≡◌, ◌+◌, ◌<◌, ◌≤◌, ◌++◌, ◌∷◌, ◌^◌, [], ℕ, List, Option, Some, None, option_map, map, length, take, drop, replicate, IfOk, IfSome, IfNone, OnOk, OnErr, IsErr};
ghost use Rattle.am_runs.specs.Canonical.{canonical_bytes};
ghost use Rattle.am_fields.specs.Writing.{IsTold};

use am_runs::{Item, RunWriter};
use am_types::Bytes;
use std::alloc::{AllocError, Global};
use std::marker::Model;

/// A kind of items that are written.
pub trait Written: Item {
    /// An item, as a contract sees it.
    type Shown;

    /// The spelling of an item.
    ghost code: { Self.Shown → List ℕ };

    /// The item that bytes spell.
    ghost value_of: { List ℕ → Self.Shown };
}

/// A kind whose items are lent as such values.
pub trait Lent<V: Copy>: Written {
    /// The item, or null, that a contract sees.
    ghost shown: { Option V → Option Self.Shown };

    /// Appends the spelling of an item.
    fn spell(to: &mut Vec<u8>, value: V) -> Result<(), AllocError>
        ensures ok { OnOk result (option_map (λ x. to.old.items ++ Self.code x) (shown (Some value)) ≡ Some to.new.items) }
        ensures told { OnOk result (IfSome (shown (Some value)) (IsTold Self.end_of Self.code Self.value_of)) };

    /// The byte that spells an item, where it is known to be one.
    fn byte_of(value: V) -> Option<u8>
        ensures byte { IfSome result (λ byte. option_map Self.code (shown (Some value)) ≡ Some (byte ∷ [])) }
        ensures told { IfSome result (λ byte. IfSome (shown (Some value)) (IsTold Self.end_of Self.code Self.value_of)) };

    /// A null is shown as a null.
    ghost nothing: { shown None ≡ None };
}

/// A column of items of a kind, and of nulls, that lends them as such values.
pub trait ItemColumn<K: Lent<V>, V: Copy> {
    /// The items that are left.
    ghost items: { Self → List (Option K.Shown) };

    /// The next item, and how many like it come at once, at most so many.
    fn give(&mut self, most: u64) -> (Option<V>, u64)
        requires some { 0 < most }
        requires left { 0 < length (items self.old) }
        ensures some { 1 ≤ result.1 }
        ensures few { result.1 ≤ most }
        ensures next { items self.old ≡ replicate result.1 (K.shown result.0) ++ items self.new };
}

// Appends the item so many times.
fn put<V: Copy, K: Lent<V>>(
    runs: &mut RunWriter<K>,
    value: Option<V>,
    count: u64,
    item: &mut Vec<u8>,
) -> Result<(), AllocError>
    requires { IfSome runs.old (λ list. length list + count ≤ 2 ^ 32) }
    ensures ok { OnOk result (IfSome runs.old (λ list. runs.new ≡ Some (list ++ replicate count (option_map K.code (K.shown value))))) }
    ensures told { OnOk result (IfSome (K.shown value) (IsTold K.end_of K.code K.value_of)) }
{
    let Some(value) = value else {
        return runs.push_alike(None, count);
    };
    if let Some(byte) = K::byte_of(value) {
        if runs.count_byte(byte, count) {
            return Ok(());
        }
    }
    item.clear();
    K::spell(item, value)?;
    runs.push_alike(Some(item.as_slice()), count)
}

/// Writes the items of a column. A contract sees those that were pushed, or None once memory was wanted: it is wanted
/// from then on.
#[derive(Drop)]
pub struct ItemWriter<K: Written> {
    runs: RunWriter<K>,
    failed: bool,
    // room for the spelling of one item
    item: Vec<u8>,
}

impl<K: Written> Model for ItemWriter<K> {
    ghost use Rattle.std.specs.Prelude.{List, Option};

    ghost Value = { Option (List (Option K.Shown)) };

    ghost use Rattle.am_fields.specs.Writing.{written, IsWritten};

    ghost view = { λ a. written K.value_of a.failed a.runs };

    ghost invariant = { λ a. IsWritten K.end_of K.code K.value_of a.failed a.runs };
}

impl<K: Written> ItemWriter<K> {
    /// No items. Nothing is allocated yet.
    pub fn new(alloc: Global) -> Self
        ensures { result ≡ Some [] }
    {
        ItemWriter {
            runs: RunWriter::new(alloc),
            failed: false,
            item: Vec::new(alloc),
        }
    }

    /// The one canonical spelling of the items. An error says that memory was wanted, now or before.
    pub fn finish(self) -> Result<Bytes, AllocError>
        requires { IfSome self (λ items. length items ≤ 2 ^ 32) }
        ensures failed { IfNone self (IsErr result) }
        ensures ok { IfOk result (λ bytes. IfSome self (λ items. bytes ≡ canonical_bytes (map (option_map K.code) items))) }
    {
        if self.failed {
            return Err(AllocError);
        }
        self.runs.finish()
    }

    /// Appends an item. An error says that memory was wanted, now or before.
    pub fn push<V: Copy>(&mut self, value: Option<V>) -> Result<(), AllocError>
    where
        K: Lent<V>,
        requires { IfSome self.old (λ items. length items < 2 ^ 32) }
        ensures failed { IfNone self.old ((self.new ≡ None) × IsErr result) }
        ensures ok { OnOk result (IfSome self.old (λ items. self.new ≡ Some (items ++ K.shown value ∷ []))) }
        ensures err { OnErr result (self.new ≡ None) }
    {
        self.push_alike(value, 1)
    }

    /// Appends the item so many times, as that many pushes, in a few steps. An error says that memory was wanted, now
    /// or before.
    pub fn push_alike<V: Copy>(&mut self, value: Option<V>, count: u64) -> Result<(), AllocError>
    where
        K: Lent<V>,
        requires { IfSome self.old (λ items. length items + count ≤ 2 ^ 32) }
        ensures failed { IfNone self.old ((self.new ≡ None) × IsErr result) }
        ensures ok { OnOk result (IfSome self.old (λ items. self.new ≡ Some (items ++ replicate count (K.shown value)))) }
        ensures err { OnErr result (self.new ≡ None) }
    {
        if self.failed {
            return Err(AllocError);
        }
        self.failed = true;
        put::<V, K>(&mut self.runs, value, count, &mut self.item)?;
        self.failed = false;
        Ok(())
    }

    /// Takes the next n items out of the column, as that many pushes, by runs. An error says that memory was wanted,
    /// now or before.
    pub fn take<V: Copy, C: ItemColumn<K, V>>(
        &mut self,
        from: &mut C,
        n: u64,
    ) -> Result<(), AllocError>
    where
        K: Lent<V>,
        requires room { IfSome self.old (λ items. length items + n ≤ 2 ^ 32) }
        requires enough { n ≤ length (C.items from.old) }
        ensures failed { IfNone self.old (self.new ≡ None) }
        ensures ok { OnOk result (IfSome self.old (λ items. self.new ≡ Some (items ++ take n (C.items from.old)))) }
        ensures behind { OnOk result (C.items from.new ≡ drop n (C.items from.old)) }
        ensures err { OnErr result (self.new ≡ None) }
    {
        let mut left = n;
        while left > 0 {
            let (value, count) = from.give(left);
            self.push_alike(value, count)?;
            left -= count;
        }
        Ok(())
    }
}
