//! How many items each row has.
ghost use Rattle.std.specs.Prelude.{◌≡◌, ◌<◌, ◌≤◌, ◌∷◌, length, take, drop, replicate};
ghost use Rattle.am_fields.specs.Groups.{counts};

use crate::counted_column::CountedColumn;
use crate::numbers::NumberColumn;
use am_runs::UnsignedCursor;
use std::marker::Model;

/// How many items each row has, of a column of lengths. A null is no item. A run of equal lengths is read once. A contract
/// sees the lengths that are left.
#[derive(Drop)]
pub struct LengthColumn<'a> {
    column: CountedColumn<Option<u64>, UnsignedCursor<'a>>,
}

impl<'a> Model for LengthColumn<'a> {
    ghost use Rattle.std.specs.Prelude.{List, ℕ};
    ghost use Rattle.am_fields.specs.Groups.{counts};

    ghost Value = { List ℕ };

    ghost view = { λ l. counts l.column };
}

impl<'a> LengthColumn<'a> {
    // The lengths of this column.
    pub(crate) fn of(column: NumberColumn<'a>) -> Self
        ensures { result ≡ counts column.entry }
    {
        LengthColumn {
            column: CountedColumn::of(column),
        }
    }

    /// The next length.
    #[inline(always)]
    pub fn next(&mut self) -> u64
        requires { 0 < length self.old }
        ensures { self.old ≡ result ∷ self.new }
    {
        match self.column.next() {
            Some(n) => n,
            None => 0,
        }
    }

    /// A length, and how many like it are known to come next, which may be none. Nothing is read.
    #[inline(always)]
    pub fn known_alike(&self) -> (u64, u64)
        ensures few { result.1 ≤ length self.now }
        ensures like { take result.1 self.now ≡ replicate result.1 result.0 }
    {
        let (item, count) = self.column.known_alike();
        match item {
            Some(n) => (n, count),
            None => (0, count),
        }
    }

    /// Leaves out the next n lengths.
    pub fn skip(&mut self, n: u64)
        requires { n ≤ length self.old }
        ensures { self.new ≡ drop n self.old }
    {
        self.column.skip(n);
    }
}
