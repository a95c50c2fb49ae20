//! A column that counts how many like the next item are to come. A run is read once.
ghost use Rattle.std.specs.Prelude.{◌≡◌, ◌+◌, ◌≤◌, ◌<◌, ◌^◌, ◌++◌, ◌∷◌, List, length, take, drop, replicate, IfOk, OnErr};
ghost use Rattle.am_fields.specs.Filling.{Fills};

use crate::fault::BadFields;
use crate::filled_column::FilledColumn;
use crate::item_cursor::{Opened, Runs};
use std::marker::Model;

/// The items of a column, one a row; blanks where the column is left out. A run of equal items is read once: then a number
/// tells how many like its first are to come. Its bytes spell the items as `Fills C.joins C.blank` says
/// (specs/Filling.antt).
#[derive(Drop)]
pub struct CountedColumn<V, C: Runs<V> + Drop> {
    // what comes next, so many times, before the others
    pub(crate) item: C::Item,
    pub(crate) alike: u64,
    pub(crate) behind: FilledColumn<V, C>,
}

impl<V, C: Runs<V> + Drop> Model for CountedColumn<V, C> {
    ghost use Rattle.std.specs.Prelude.{List, ◌+◌, ◌<◌, ◌^◌, ◌++◌, length, replicate};

    ghost Value = { List V };

    ghost view = { λ c. replicate c.alike (C.value c.item) ++ c.behind };

    ghost invariant = { λ c. c.alike + length c.behind < 2 ^ 64 };
}

impl<V, C: Runs<V> + Drop> CountedColumn<V, C> {
    // The column of these items, none of which is counted yet.
    pub(crate) fn of(behind: FilledColumn<V, C>) -> Self
        ensures { result ≡ behind }
    {
        let _all = behind.left();
        CountedColumn {
            item: C::blank(),
            alike: 0,
            behind,
        }
    }

    /// The next item.
    #[inline(always)]
    pub fn next(&mut self) -> C::Item
        requires { 0 < length self.old }
        ensures { self.old ≡ C.value result ∷ self.new }
    {
        if self.alike > 0 {
            self.alike -= 1;
            return self.item;
        }
        let (item, count) = self.behind.next_alike_within(u64::MAX);
        self.item = item;
        self.alike = count - 1;
        item
    }

    /// The next item, and how many like it come at once, at most so many. A run costs two steps at most.
    pub fn next_alike_within(&mut self, most: u64) -> (C::Item, u64)
        requires some { 0 < most }
        requires left { 0 < length self.old }
        ensures some { 1 ≤ result.1 }
        ensures few { result.1 ≤ most }
        ensures next { self.old ≡ replicate result.1 (C.value result.0) ++ self.new }
    {
        if self.alike > 0 {
            let count = most.min(self.alike);
            self.alike -= count;
            return (self.item, count);
        }
        self.behind.next_alike_within(most)
    }

    /// An item, and how many like it are known to come next, which may be none. Nothing is read.
    #[inline(always)]
    pub fn known_alike(&self) -> (C::Item, u64)
        ensures few { result.1 ≤ length self.now }
        ensures like { take result.1 self.now ≡ replicate result.1 (C.value result.0) }
    {
        (self.item, self.alike)
    }

    /// Leaves out the next n items.
    pub fn skip(&mut self, n: u64)
        requires { n ≤ length self.old }
        ensures { self.new ≡ drop n self.old }
    {
        if n <= self.alike {
            self.alike -= n;
            return;
        }
        self.behind.skip(n - self.alike);
        self.alike = 0;
    }

    /// How many items are left.
    pub fn left(&self) -> u64
        ensures { result ≡ length self.now }
    {
        self.alike + self.behind.left()
    }

    /// The same column again.
    pub fn again(&self) -> Self
        ensures { result ≡ self.now }
    {
        CountedColumn {
            item: self.item,
            alike: self.alike,
            behind: self.behind.again(),
        }
    }
}

impl<'a, V, C: Opened<'a, V> + Drop> CountedColumn<V, C> {
    /// The column that has this many items, or is left out. `BadFields` where the bytes spell no such list.
    pub fn over(bytes: &'a [u8], count: u64) -> Result<Self, BadFields>
        ensures spelled { IfOk result (Fills C.joins C.blank bytes.now) }
        ensures count { IfOk result (λ c. length c ≡ count) }
        ensures err { OnErr result ((xs : List V) → Fills C.joins C.blank bytes.now xs → length xs ≡ count → ⊥) }
    {
        match FilledColumn::<V, C>::over(bytes, count) {
            Ok(behind) => Ok(CountedColumn::of(behind)),
            Err(fault) => Err(fault),
        }
    }
}
