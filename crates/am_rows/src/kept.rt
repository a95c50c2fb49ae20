//! The operations that have a row, in document order.
ghost use Rattle.std.specs.Prelude.{◌≡◌, All, filter, map, IfOk, OnOk};
ghost use Rattle.am_types.specs.Order.{sorted_by};
ghost use Rattle.am_places.specs.Line.{IsLine};
ghost use Rattle.am_places.specs.Numbered.{operation_of};
ghost use Rattle.am_places.specs.Placed.{IsPlaced, placed_cmp};
ghost use Rattle.am_places.specs.Sound.{Sound};
ghost use Rattle.am_rows.specs.Lent.{kept_operation};
ghost use Rattle.am_rows.specs.Making.{stays};

use am_places::{Line, Numbered, Placed, compare_placed, placed_near};
use am_types::actions::DELETE;
use std::alloc::{AllocError, Global};
use std::cmp::Ordering;

/// An operation that has a row, beside its place among all operations: that is where it is sought first.
#[derive(Clone, Copy)]
pub struct Kept<'a> {
    pub placed: Placed<'a>,
    pub at: usize,
}

// It is no deletion.
fn has_row(x: &Numbered<'_>) -> bool
    ensures { result ≡ stays (operation_of x.now) }
{
    x.op.action != DELETE
}

/// The operations that have a row, beside the places of their slots, in ascending id.
pub fn place_kept<'a>(
    alloc: Global,
    operations: &[Numbered<'a>],
    places: &Line<'_>,
) -> Result<Vec<Kept<'a>>, AllocError>
    requires sound { Sound (map operation_of operations.now) }
    requires line { IsLine (map operation_of operations.now) places.now }
    ensures kept { IfOk result (λ found. map kept_operation found.items ≡ filter stays (map operation_of operations.now)) }
    ensures placed { IfOk result (λ found. All (λ k. IsPlaced (map operation_of operations.now) k.placed) found.items) }
{
    let mut found = Vec::new(alloc);
    let mut inserted: usize = 0;
    for i in 0..operations.len() {
        let x = operations[i];
        if has_row(&x) {
            let placed = placed_near(operations, places, x, inserted);
            found.push(Kept { placed, at: i })?;
        }
        inserted = inserted.saturating_add(usize::from(x.op.insert));
    }
    Ok(found)
}

/// In the order of a document.
pub fn sort_kept(kept: &mut Vec<Kept<'_>>) -> Result<(), AllocError>
    ensures { OnOk result (map (λ k. k.placed) kept.new.items ≡ sorted_by placed_cmp (map (λ k. k.placed) kept.old.items)) }
{
    kept.sort_by(
        |p: &Kept<'_>, q: &Kept<'_>| -> Ordering
            ensures { result ≡ placed_cmp p.now.placed q.now.placed }
        { compare_placed(&p.placed, &q.placed) },
    )?;
    Ok(())
}
