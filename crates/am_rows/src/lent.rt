//! Rows that are lent from changes.
ghost use Rattle.std.specs.Prelude.{◌≡◌, ◌<◌, map, length, slice_index_or, IfOk, vec_items};
ghost use Rattle.am_types.specs.Operations.{all_operations};
ghost use Rattle.am_types.specs.Rows as document;
ghost use Rattle.am_types.specs.ValidSets.{IsValidSet};
ghost use Rattle.am_places.specs.Numbered.{operation_of};
ghost use Rattle.am_places.specs.Sound.{Sound};
ghost use Rattle.am_rows.specs.Lent.{lent_row};
ghost use Rattle.am_rows.specs.Making.{rows_in};

use crate::kept::{Kept, place_kept};
use crate::naming::successors;
use crate::ranked::in_order;
use am_places::{Numbered, ascending_lent, find_near, line_of};
use am_types::Change;
use std::alloc::{AllocError, Global};
use std::marker::Model;

/// An operation that has a row, and those that name it as a predecessor, in ascending id.
#[derive(Clone, Copy)]
pub struct LentRow<'a> {
    pub operation: Numbered<'a>,
    pub succs: &'a [Numbered<'a>],
}

/// The rows of changes in document order, lent from the changes. Contracts see the rows.
#[derive(Drop)]
pub struct LentRows<'a> {
    operations: Vec<Numbered<'a>>,
    succs: Vec<Vec<Numbered<'a>>>,
    kept: Vec<Kept<'a>>,
}

impl<'a> Model for LentRows<'a> {
    ghost use Rattle.std.specs.Prelude.{List};
    ghost use Rattle.am_types.specs.declared.Row.{Row};
    ghost use Rattle.am_rows.specs.Lent.{rows_lent, AreLent};

    ghost Value = { List Row };

    ghost view = { λ r. rows_lent r.operations.items r.kept.items };

    ghost invariant = { λ r. AreLent r.operations.items r.succs.items r.kept.items };
}

impl<'a> LentRows<'a> {
    // The rows of operations in ascending id.
    pub(crate) fn over(alloc: Global, operations: Vec<Numbered<'a>>) -> Result<Self, AllocError>
        requires sound { Sound (map operation_of (vec_items operations)) }
        ensures { IfOk result (λ rows. rows ≡ rows_in (map operation_of (vec_items operations.entry))) }
    {
        let succs = successors(alloc, operations.as_slice())?;
        let places = line_of(alloc, operations.as_slice())?;
        let kept = place_kept(alloc, operations.as_slice(), &places)?;
        let kept = in_order(alloc, operations.as_slice(), kept)?;
        Ok(LentRows {
            operations,
            succs,
            kept,
        })
    }

    /// How many rows there are.
    pub fn len(&self) -> usize
        ensures { result ≡ length self.now }
    {
        self.kept.len()
    }

    /// The row at this place.
    pub fn get(&self, i: usize) -> LentRow<'_>
        requires { i < length self.now }
        ensures { lent_row result ≡ slice_index_or self.now i (lent_row result) }
    {
        let kept = self.kept[i];
        let x = kept.placed.operation;
        match find_near(self.operations.as_slice(), x.id(), kept.at) {
            Some(at) => LentRow {
                operation: x,
                succs: self.succs[at].as_slice(),
            },
            None => unreachable!(),
        }
    }
}

/// The rows of a valid set of changes, listed in any order. It takes time in n log n, of n operations, predecessors and
/// bytes.
pub fn lent_rows<'a>(alloc: Global, changes: &[&'a Change]) -> Result<LentRows<'a>, AllocError>
    requires valid { IsValidSet (map (λ c. c.now) changes.now) }
    ensures rows { IfOk result (λ rows. rows ≡ document.rows (all_operations (map (λ c. c.now) changes.now))) }
{
    let operations = ascending_lent(alloc, changes)?;
    LentRows::over(alloc, operations)
}
