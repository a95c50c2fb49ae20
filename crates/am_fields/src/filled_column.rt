//! Items of a column that has one for each row, or is left out.
ghost use Rattle.std.specs.Prelude.{◌≡◌, ◌≤◌, ◌<◌, ◌++◌, ◌∷◌, [], List, length, drop, replicate, IfOk, OnErr};
ghost use Rattle.am_fields.specs.Filling.{Fills, filled};

use crate::fault::BadFields;
use crate::item_cursor::{Opened, Runs, Spelled};
use std::marker::{Model, PhantomData};

/// The items of a column, one a row; blanks where the column is left out. Its bytes spell the items as
/// `Fills C.joins C.blank` says (specs/Filling.antt).
#[derive(Drop)]
pub struct FilledColumn<V, C: Spelled<V> + Drop> {
    pub(crate) cursor: C,
    pub(crate) left: u64,
    of: PhantomData<V>,
}

impl<V, C: Spelled<V> + Drop> Model for FilledColumn<V, C> {
    ghost use Rattle.std.specs.Prelude.{List};
    ghost use Rattle.am_fields.specs.Filling.{filled, IsFull};

    ghost Value = { List V };

    ghost view = { λ c. filled C.blank c.left (C.items c.cursor) };

    ghost invariant = { λ c. IsFull c.left (C.items c.cursor) };
}

impl<V, C: Spelled<V> + Drop> FilledColumn<V, C> {
    /// The column of these bytes that has this many items, or is left out. The cursor has all that they join.
    pub(crate) fn read(bytes: &[u8], cursor: C, count: u64) -> Result<Self, BadFields>
        requires { C.joins bytes.now (C.items cursor) }
        ensures spelled { IfOk result (Fills C.joins C.blank bytes.now) }
        ensures count { IfOk result (λ c. length c ≡ count) }
        ensures items { IfOk result (λ c. c ≡ filled C.blank count (C.items cursor)) }
        ensures err { OnErr result ((xs : List V) → Fills C.joins C.blank bytes.now xs → length xs ≡ count → ⊥) }
    {
        if bytes.is_empty() {
            return Ok(FilledColumn {
                cursor,
                left: count,
                of: PhantomData,
            });
        }
        if cursor.left() != count {
            return Err(BadFields);
        }
        Ok(FilledColumn {
            cursor,
            left: count,
            of: PhantomData,
        })
    }

    /// The column of these bytes, which are known to spell so many items. The cursor has all that they join.
    pub(crate) fn known(bytes: &[u8], cursor: C, count: u64) -> Self
        requires joined { C.joins bytes.now (C.items cursor) }
        requires whole { (bytes.now ≡ [] → ⊥) → length (C.items cursor) ≡ count }
        ensures spelled { Fills C.joins C.blank bytes.now result }
        ensures count { length result ≡ count }
    {
        FilledColumn {
            cursor,
            left: count,
            of: PhantomData,
        }
    }

    /// The column of which these items are left.
    pub(crate) fn of(cursor: C) -> Self
        ensures { result ≡ C.items cursor }
    {
        FilledColumn {
            left: cursor.left(),
            cursor,
            of: PhantomData,
        }
    }

    /// The next item.
    pub fn next(&mut self) -> C::Item
        requires { 0 < length self.old }
        ensures { self.old ≡ C.value result ∷ self.new }
    {
        self.left -= 1;
        match self.cursor.next() {
            Some(item) => item,
            None => C::blank(),
        }
    }

    /// Leaves out the next n items.
    pub fn skip(&mut self, n: u64)
        requires { n ≤ length self.old }
        ensures { self.new ≡ drop n self.old }
    {
        self.left -= n;
        self.cursor.skip(n);
    }

    /// How many items are left.
    pub fn left(&self) -> u64
        ensures { result ≡ length self.now }
    {
        self.left
    }

    /// The same column again.
    pub fn again(&self) -> Self
        ensures { result ≡ self.now }
    {
        FilledColumn {
            cursor: self.cursor.again(),
            left: self.left,
            of: PhantomData,
        }
    }
}

impl<V, C: Runs<V> + Drop> FilledColumn<V, C> {
    /// The next item, and how many like it come at once, at most so many. A run costs two steps at most.
    #[inline(always)]
    pub fn next_alike_within(&mut self, most: u64) -> (C::Item, u64)
        requires some { 0 < most }
        requires left { 0 < length self.old }
        ensures some { 1 ≤ result.1 }
        ensures few { result.1 ≤ most }
        ensures next { self.old ≡ replicate result.1 (C.value result.0) ++ self.new }
    {
        match self.cursor.next_alike_within(most) {
            Some((item, count)) => {
                self.left -= count;
                (item, count)
            }
            None => {
                let count = most.min(self.left);
                self.left -= count;
                (C::blank(), count)
            }
        }
    }
}

impl<'a, V, C: Opened<'a, V> + Drop> FilledColumn<V, C> {
    /// The column that has this many items, or is left out. `BadFields` where the bytes spell no such list.
    pub fn over(bytes: &'a [u8], count: u64) -> Result<Self, BadFields>
        ensures spelled { IfOk result (Fills C.joins C.blank bytes.now) }
        ensures count { IfOk result (λ c. length c ≡ count) }
        ensures err { OnErr result ((xs : List V) → Fills C.joins C.blank bytes.now xs → length xs ≡ count → ⊥) }
    {
        match C::opened(bytes, count) {
            Some(cursor) => FilledColumn::read(bytes, cursor, count),
            None => Err(BadFields),
        }
    }

    /// The column of this many items, which the bytes are known to spell.
    pub(crate) fn reopened(bytes: &'a [u8], count: u64) -> Self
        requires { (xs : List V) × Fills C.joins C.blank bytes.now xs × (length xs ≡ count) }
        ensures spelled { Fills C.joins C.blank bytes.now result }
        ensures count { length result ≡ count }
    {
        if bytes.is_empty() {
            let cursor = C::known(bytes, 0);
            return FilledColumn::known(bytes, cursor, count);
        }
        let cursor = C::known(bytes, count);
        FilledColumn::known(bytes, cursor, count)
    }
}
