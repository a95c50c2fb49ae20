//! Columns of which rows are left out before they are passed.
ghost use Rattle.std.specs.Prelude.{◌≡◌, ◌<◌, ◌≤◌, ◌∷◌, List, length, drop};
ghost use Rattle.am_types.specs.Views.{id_of, key_of};

use am_doccols::SuccCursor;
use am_fields::{GroupColumns, IdColumns, KeyColumns};
use am_types::{IdRef, Key, KeyRef, List, OpId};
use std::marker::Model;

/// Columns whose items are read one after another.
pub trait Items: Drop {
    /// What an item stands for.
    type Value;

    /// What an item is read as.
    type Item;

    /// What a read item stands for.
    ghost value: { Self.Item → Self.Value };

    /// The items that are left.
    ghost values: { Self → List Self.Value };

    /// The next item.
    fn next(&mut self) -> Self::Item
        requires { 0 < length (values self.old) }
        ensures { values self.old ≡ value result ∷ values self.new };

    /// The next item, put into one that is there.
    fn next_into(&mut self, item: &mut Self::Item)
        requires { 0 < length (values self.old) }
        ensures { values self.old ≡ value item.new ∷ values self.new };

    /// Leaves out the next n items.
    fn skip(&mut self, n: u64)
        requires { n ≤ length (values self.old) }
        ensures { values self.new ≡ drop n (values self.old) };

    /// How many items are left.
    fn left(&self) -> u64
        ensures { result ≡ length (values self.now) };

    /// The same columns again.
    fn again(&self) -> Self
        ensures { values result ≡ values self.now };
}

impl<'a> Items for KeyColumns<'a> {
    type Value = Key;

    type Item = KeyRef<'a>;

    ghost value = { key_of };

    ghost values = { λ c. c };

    #[inline(always)]
    fn next(&mut self) -> KeyRef<'a> {
        self.next()
    }

    fn next_into(&mut self, item: &mut KeyRef<'a>) {
        *item = self.next();
    }

    fn skip(&mut self, n: u64) {
        self.skip(n);
    }

    #[inline(always)]
    fn left(&self) -> u64 {
        self.left()
    }

    fn again(&self) -> Self {
        self.again()
    }
}

impl<'a> Items for IdColumns<'a> {
    type Value = OpId;

    type Item = IdRef<'a>;

    ghost value = { id_of };

    ghost values = { λ c. c };

    #[inline(always)]
    fn next(&mut self) -> IdRef<'a> {
        self.next()
    }

    fn next_into(&mut self, item: &mut IdRef<'a>) {
        *item = self.next();
    }

    fn skip(&mut self, n: u64) {
        self.skip(n);
    }

    #[inline(always)]
    fn left(&self) -> u64 {
        self.left()
    }

    fn again(&self) -> Self {
        self.again()
    }
}

impl<'a> Items for GroupColumns<'a> {
    type Value = List<OpId>;

    type Item = SuccCursor<'a>;

    ghost value = { λ ids. ids };

    ghost values = { λ c. c };

    fn next(&mut self) -> SuccCursor<'a> {
        self.next()
    }

    #[inline(always)]
    fn next_into(&mut self, item: &mut SuccCursor<'a>) {
        self.next_into(item);
    }

    fn skip(&mut self, n: u64) {
        self.skip(n);
    }

    #[inline(always)]
    fn left(&self) -> u64 {
        self.left()
    }

    fn again(&self) -> Self {
        self.again()
    }
}

/// Columns whose items are seldom asked for. Those that are left out are counted, and passed together before the next that
/// is read. A contract sees the items that are left.
#[derive(Drop)]
pub struct Deferred<C: Items> {
    columns: C,
    owed: u64,
}

impl<C: Items> Model for Deferred<C> {
    ghost use Rattle.std.specs.Prelude.{List, length, drop, ◌≤◌};

    ghost Value = { List C.Value };

    ghost view = { λ d. drop d.owed (C.values d.columns) };

    ghost invariant = { λ d. d.owed ≤ length (C.values d.columns) };
}

impl<C: Items> Deferred<C> {
    /// The columns, of which no item is left out yet.
    pub fn of(columns: C) -> Self
        ensures { result ≡ C.values columns }
    {
        Deferred { columns, owed: 0 }
    }

    /// Leaves out the next item.
    #[inline(always)]
    pub fn pass(&mut self)
        requires { 0 < length self.old }
        ensures { (v : C.Value) × (self.old ≡ v ∷ self.new) }
    {
        let _all = self.columns.left();
        self.owed += 1;
    }

    /// Leaves out the next n items.
    pub fn pass_many(&mut self, n: u64)
        requires { n ≤ length self.old }
        ensures { self.new ≡ drop n self.old }
    {
        let _all = self.columns.left();
        self.owed += n;
    }

    /// The next item.
    #[inline(always)]
    pub fn next(&mut self) -> C::Item
        requires { 0 < length self.old }
        ensures { self.old ≡ C.value result ∷ self.new }
    {
        if self.owed > 0 {
            self.columns.skip(self.owed);
            self.owed = 0;
        }
        self.columns.next()
    }

    /// The next item, put into one that is there.
    #[inline(always)]
    pub fn next_into(&mut self, item: &mut C::Item)
        requires { 0 < length self.old }
        ensures { self.old ≡ C.value item.new ∷ self.new }
    {
        if self.owed > 0 {
            self.columns.skip(self.owed);
            self.owed = 0;
        }
        self.columns.next_into(item);
    }

    /// The columns behind what was left out, which is passed.
    pub fn columns(&mut self) -> C
        ensures columns { C.values result ≡ self.old }
        ensures same { self.new ≡ self.old }
    {
        self.columns.skip(self.owed);
        self.owed = 0;
        self.columns.again()
    }
}
