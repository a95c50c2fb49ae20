//! The objects of rows, read once for all rows that stand together in one.
ghost use Rattle.std.specs.Prelude.{◌≡◌, ◌<◌, ◌≤◌, ◌∷◌, length, take, drop, replicate};
ghost use Rattle.am_types.specs.declared.ObjId.{ObjId};
ghost use Rattle.am_types.specs.Views.{object_of};

use am_fields::ObjectColumns;
use am_types::ObjRef;
use std::marker::Model;

/// The objects in which rows stand, one a row. A contract sees those that are left.
#[derive(Drop)]
pub struct Objects<'a> {
    columns: ObjectColumns<'a>,
    /// In which the first rows of the columns stand, so many of them, and how many of these were passed.
    object: ObjRef<'a>,
    alike: u64,
    passed: u64,
}

impl<'a> Model for Objects<'a> {
    ghost use Rattle.std.specs.Prelude.{◌≡◌, ◌≤◌, List, length, take, drop, replicate};
    ghost use Rattle.am_types.specs.declared.ObjId.{ObjId};
    ghost use Rattle.am_types.specs.Views.{object_of};

    ghost Value = { List ObjId };

    ghost view = { λ o. drop o.passed o.columns };

    ghost invariant = { λ o. (o.passed ≤ o.alike) × (o.alike ≤ length o.columns) × (take o.alike o.columns ≡ replicate o.alike (object_of o.object)) };
}

impl<'a> Objects<'a> {
    /// The objects of these columns.
    pub fn of(columns: ObjectColumns<'a>) -> Self
        ensures { result ≡ columns.entry }
    {
        Objects {
            columns,
            object: ObjRef::Root,
            alike: 0,
            passed: 0,
        }
    }

    /// The next object.
    #[inline(always)]
    pub fn next(&mut self) -> ObjRef<'a>
        requires { 0 < length self.old }
        ensures { self.old ≡ object_of result ∷ self.new }
    {
        if self.passed < self.alike {
            self.passed += 1;
            return self.object;
        }
        self.columns.skip(self.passed);
        let (object, alike) = self.columns.like();
        self.object = object;
        self.alike = alike;
        self.passed = 1;
        object
    }

    /// Leaves out the next object.
    #[inline(always)]
    pub fn pass(&mut self)
        requires { 0 < length self.old }
        ensures { (o : ObjId) × (self.old ≡ o ∷ self.new) }
    {
        let _object = self.next();
    }

    /// An object, and how many of the next rows are known to stand in it, which may be none. Nothing is read.
    #[inline(always)]
    pub fn known_alike(&self) -> (ObjRef<'a>, u64)
        ensures few { result.1 ≤ length self.now }
        ensures like { take result.1 self.now ≡ replicate result.1 (object_of result.0) }
    {
        (self.object, self.alike - self.passed)
    }

    /// Leaves out the next n objects.
    pub fn skip(&mut self, n: u64)
        requires { n ≤ length self.old }
        ensures { self.new ≡ drop n self.old }
    {
        if n <= self.alike - self.passed {
            self.passed += n;
            return;
        }
        let _all = self.columns.left();
        self.columns.skip(self.passed + n);
        self.alike = 0;
        self.passed = 0;
    }

    /// The columns of those that are left.
    pub fn columns(&self) -> ObjectColumns<'a>
        ensures { result ≡ self.now }
    {
        let mut columns = self.columns.again();
        columns.skip(self.passed);
        columns
    }
}
