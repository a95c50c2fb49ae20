//! What stands beside a column of places of actors, and how a row of both is read.
ghost use Rattle.std.specs.Prelude.{◌≡◌, ◌+◌, ◌≤◌, ◌<◌, ◌^◌, ◌++◌, ◌∷◌, ◌↔◌, ℕ, List, Option, Some, IsTrue, length, map, take, drop, option_map, IfOk, IfSome, OnOk, OnErr};
ghost use Rattle.std.specs.List.{AllByRecursion};
ghost use Rattle.am_fields.specs.Reading.{Rows, IsReading, AllReadAt};
ghost use Rattle.am_fields.specs.Spelling.{SpellsOnly};

use crate::actors::Actors;
use crate::fault::BadFields;
use std::alloc::AllocError;

/// What stands beside the places, one cell a row.
pub trait RowCells: Drop {
    /// What a row holds.
    type Value;

    /// What stands beside a place.
    type Cell;

    /// Up to so many rows are sooner read than leapt over.
    const FEW: u64;

    /// How a place and a cell are read.
    ghost rows: { Rows Self.Value Self.Cell };

    /// The cells that are left.
    ghost cells: { Self → List Self.Cell };

    /// Leaves out the next n cells.
    fn skip(&mut self, n: u64)
        requires { n ≤ length (cells self.old) }
        ensures { cells self.new ≡ drop n (cells self.old) };

    /// The same cells again.
    fn again(&self) -> Self
        ensures { cells result ≡ cells self.now };

    /// A row reads as `rows` says.
    ghost reads: { (actors : List (List ℕ)) → IsReading actors (rows.read actors) rows.actor_of rows.cell_of rows.Within };
}

/// Cells that are read with the places beside them.
pub trait Beside<'a>: RowCells {
    /// What a row is read as, lent.
    type Item: Copy;

    /// What a lent item is of.
    ghost item_of: { Self.Item → Self.Value };

    /// What the next cell and a place are read as, if the row is within its limits.
    fn item(&mut self, actors: &mut Actors<'a>, place: Option<u64>) -> Option<Self::Item>
        requires { 0 < length (Self.cells self.old) }
        ensures same { actors.new ≡ actors.old }
        ensures item { (cell : Self.Cell) × (Self.cells self.old ≡ cell ∷ Self.cells self.new) × (option_map item_of result ≡ Self.rows.read actors.old place cell) };

    /// Whether each of the next n rows, all of this place, is read as an item: judged by stretches of cells. Where each is,
    /// it goes behind them.
    fn judge_alike(&mut self, actors: &mut Actors<'a>, place: Option<u64>, n: u64) -> bool
        requires { n ≤ length (Self.cells self.old) }
        ensures same { actors.new ≡ actors.old }
        ensures read { IsTrue result ↔ AllReadAt (Self.rows.read actors.old) place (take n (Self.cells self.old)) }
        ensures behind { IsTrue result → Self.cells self.new ≡ drop n (Self.cells self.old) };
}

/// A column of counters beside the places.
pub trait Counters<'a>: Beside<'a> {
    /// The writer of such columns.
    type Writer;

    /// The bytes spell these cells.
    ghost spells: { List ℕ → List Self.Cell → Type 0 };

    /// What the writer holds.
    ghost written: { Self.Writer → Option (List Self.Cell) };

    /// The column that has this many cells, which may be those of values within their limits.
    fn over(bytes: &'a [u8], count: u64) -> Result<Self, BadFields>
        ensures spelled { IfOk result (λ c. SpellsOnly spells bytes.now (Self.cells c)) }
        ensures count { IfOk result (λ c. length (Self.cells c) ≡ count) }
        ensures err { OnErr result ((values : List Self.Value) → spells bytes.now (map Self.rows.cell_of values) → AllByRecursion Self.rows.Within values → length values ≡ count → ⊥) };

    /// The column of this many cells, which the bytes are known to spell.
    fn spelled(bytes: &'a [u8], count: u64) -> Self
        requires { (values : List Self.Value) × spells bytes.now (map Self.rows.cell_of values) × AllByRecursion Self.rows.Within values × (length values ≡ count) }
        ensures spelled { SpellsOnly spells bytes.now (Self.cells result) }
        ensures count { length (Self.cells result) ≡ count };

    /// Appends the next n cells to the writer, by runs.
    fn copy_to(&mut self, to: &mut Self::Writer, n: u64) -> Result<(), AllocError>
        requires room { IfSome (written to.old) (λ xs. length xs + n ≤ 2 ^ 32) }
        requires enough { n ≤ length (Self.cells self.old) }
        requires within { (values : List Self.Value) × (Self.cells self.old ≡ map Self.rows.cell_of values) × AllByRecursion Self.rows.Within values }
        ensures ok { OnOk result (IfSome (written to.old) (λ xs. written to.new ≡ Some (xs ++ take n (Self.cells self.old)))) }
        ensures behind { OnOk result (Self.cells self.new ≡ drop n (Self.cells self.old)) };
}
