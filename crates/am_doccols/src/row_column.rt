//! Writing a column of rows that are gathered, by runs: rows that are alike in it cost a comparison each.
ghost use Rattle.std.specs.Prelude.{◌≡◌, ◌+◌, ◌≤◌, ◌^◌, ◌++◌, ℕ, List, Option, Some, None, IsTrue, length, map, take, replicate, IfSome, IfNone, OnOk};
ghost use Rattle.am_doccols.specs.declared.gathered.GatheredRow.{GatheredRow};

use crate::gathered::GatheredRow;
use am_fields::ListedActors;
use std::alloc::AllocError;

/// A column of rows.
pub trait RowColumn {
    /// The writer of the column.
    type Writer;

    /// What a row has there.
    type Cell;

    /// What the writer holds.
    ghost held: { Self.Writer → Option (List Self.Cell) };

    /// What a row has there, where places name these actors.
    ghost cell: { List (List ℕ) → GatheredRow → Self.Cell };

    /// Whether two rows are known to have the same there.
    fn alike(a: &GatheredRow<'_>, b: &GatheredRow<'_>) -> bool
        ensures { (actors : List (List ℕ)) → IsTrue result → cell actors a.now ≡ cell actors b.now };

    /// Appends what a row has there, so many times.
    fn put(
        to: &mut Self::Writer,
        actors: &ListedActors<'_>,
        row: &GatheredRow<'_>,
        count: u64,
    ) -> Result<(), AllocError>
        requires { IfSome (held to.old) (λ xs. length xs + count ≤ 2 ^ 32) }
        ensures ok { OnOk result (IfSome (held to.old) (λ xs. held to.new ≡ Some (xs ++ replicate count (cell actors.now row.now)))) }
        ensures failed { IfNone (held to.old) (held to.new ≡ None) };
}

// How many rows at the beginning are like the first in a column.
fn alike_with<C: RowColumn>(first: &GatheredRow<'_>, rows: &[GatheredRow<'_>]) -> usize
    ensures few { result ≤ length rows.now }
    ensures alike { (actors : List (List ℕ)) → map (C.cell actors) (take result rows.now) ≡ replicate result (C.cell actors first.now) }
{
    let mut n = 0;
    while n < rows.len() {
        if !C::alike(first, &rows[n]) {
            return n;
        }
        n += 1;
    }
    n
}

/// Appends what the rows have in a column, by those that are alike. An error says that memory was wanted.
pub fn push_column<C: RowColumn>(
    to: &mut C::Writer,
    actors: &ListedActors<'_>,
    rows: &[GatheredRow<'_>],
) -> Result<(), AllocError>
    requires { IfSome (C.held to.old) (λ xs. length xs + length rows.now ≤ 2 ^ 32) }
    ensures { OnOk result (IfSome (C.held to.old) (λ xs. C.held to.new ≡ Some (xs ++ map (C.cell actors.now) rows.now))) }
{
    let mut at = 0;
    while at < rows.len() {
        let first = &rows[at];
        let count = 1 + alike_with::<C>(first, &rows[at + 1..]);
        C::put(to, actors, first, count as u64)?;
        at += count;
    }
    Ok(())
}
