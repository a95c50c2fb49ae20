//! Writing rows that are gathered first, so that a column is written at once, mostly by the rows that are alike in it.
ghost use Rattle.std.specs.Prelude.{◌≡◌, ◌≤◌, ◌++◌, ◌∷◌, [], Some, None, false, map, length, take, drop, IfOk, IfSome, IfNone, OnOk, OnErr, IsErr};
ghost use Rattle.std.specs.List.{AllByRecursion};
ghost use Rattle.am_types.specs.Rows.{row_of};
ghost use Rattle.am_types.specs.Views.{id_of};
ghost use Rattle.am_colmeta.specs.Metadata.{metadata, listing, body};
ghost use Rattle.am_doccols.specs.Columns.{written_rows};
ghost use Rattle.am_doccols.specs.Conditions.{IsRowFor, HasRoom};
ghost use Rattle.am_doccols.specs.Front.{HasRoomFor};
ghost use Rattle.am_doccols.specs.Gathered.{IsGatheringRows, operation, rows_gathered};
ghost use Rattle.am_doccols.specs.Lent.{row_with};

use crate::gathered::GatheredRow;
use crate::lent::RowFields;
use crate::row_writer::RowWriter;
use crate::rows::RowCursor;
use am_types::{ActorId, Bytes, IdRef, Op};
use std::alloc::{AllocError, Global};
use std::marker::Model;

// So many rows are gathered before they are written: few enough to stay near the processor.
const MANY: usize = 128;

/// Writes rows to columns as a `RowWriter` does, but gathers them first. A contract sees the actors, and the rows that were
/// pushed, or None once memory was wanted: it is wanted from then on.
#[derive(Drop)]
pub struct RowGatherer<'a> {
    writer: RowWriter,
    rows: Vec<GatheredRow<'a>>,
    succs: Vec<IdRef<'a>>,
    failed: bool,
}

impl<'a> Model for RowGatherer<'a> {
    ghost use Rattle.std.specs.Prelude.{List, ℕ, Option};
    ghost use Rattle.am_types.specs.declared.Row.{Row};

    ghost Value = { List (List ℕ) × Option (List Row) };

    ghost use Rattle.am_doccols.specs.Gathered.{rows_gathered, IsGathering};

    ghost view = { λ g. (g.writer.0, rows_gathered g.failed g.writer.1 g.rows.items g.succs.items) };

    ghost invariant = { λ g. IsGathering g.failed g.writer.0 g.writer.1 g.rows.items g.succs.items };
}

// Writes the rows that are gathered, and gathers none.
fn write_out<'a>(
    writer: &mut RowWriter,
    rows: &mut Vec<GatheredRow<'a>>,
    succs: &mut Vec<IdRef<'a>>,
) -> Result<(), AllocError>
    requires { IsGatheringRows writer.old.0 writer.old.1 rows.old.items succs.old.items }
    ensures actors { writer.new.0 ≡ writer.old.0 }
    ensures still { OnOk result (IsGatheringRows writer.new.0 writer.new.1 rows.new.items succs.new.items) }
    ensures same { OnOk result (writer.new.1 ≡ rows_gathered false writer.old.1 rows.old.items succs.old.items) }
    ensures none { OnOk result ((rows.new.items ≡ []) × (succs.new.items ≡ [])) }
    ensures err { OnErr result (writer.new.1 ≡ None) }
{
    writer.push_all(rows.as_slice(), succs.as_slice())?;
    rows.clear();
    succs.clear();
    Ok(())
}

// Writes the rows that are gathered where they are many.
fn make_room<'a>(
    writer: &mut RowWriter,
    rows: &mut Vec<GatheredRow<'a>>,
    succs: &mut Vec<IdRef<'a>>,
) -> Result<(), AllocError>
    requires { IsGatheringRows writer.old.0 writer.old.1 rows.old.items succs.old.items }
    ensures actors { writer.new.0 ≡ writer.old.0 }
    ensures still { OnOk result (IsGatheringRows writer.new.0 writer.new.1 rows.new.items succs.new.items) }
    ensures same { OnOk result (rows_gathered false writer.new.1 rows.new.items succs.new.items ≡ rows_gathered false writer.old.1 rows.old.items succs.old.items) }
{
    if rows.len() < MANY {
        return Ok(());
    }
    write_out(writer, rows, succs)
}

impl<'a> RowGatherer<'a> {
    /// No rows, and the actors that the places name.
    pub fn new(alloc: Global, actors: &[ActorId]) -> Result<Self, AllocError>
        ensures actors { IfOk result (λ g. g.0 ≡ actors.now) }
        ensures rows { IfOk result (λ g. g.1 ≡ Some []) }
    {
        let writer = RowWriter::new(alloc, actors)?;
        Ok(RowGatherer {
            writer,
            rows: Vec::new(alloc),
            succs: Vec::new(alloc),
            failed: false,
        })
    }

    /// Appends the row of the operation with this id and these successors, all lent.
    pub fn push_op(
        &mut self,
        id: IdRef<'a>,
        op: &'a Op,
        succs: &[IdRef<'a>],
    ) -> Result<(), AllocError>
        requires row { IsRowFor self.old.0 (row_of (map id_of succs.now) (operation id op.now)) }
        requires room { IfSome self.old.1 (λ rows. HasRoom rows (map id_of succs.now)) }
        ensures actors { self.new.0 ≡ self.old.0 }
        ensures failed { IfNone self.old.1 ((self.new.1 ≡ None) × IsErr result) }
        ensures ok { OnOk result (IfSome self.old.1 (λ rows. self.new.1 ≡ Some (rows ++ row_of (map id_of succs.now) (operation id.entry op.now) ∷ []))) }
        ensures err { OnErr result (self.new.1 ≡ None) }
    {
        if self.failed {
            return Err(AllocError);
        }
        self.failed = true;
        make_room(&mut self.writer, &mut self.rows, &mut self.succs)?;
        self.succs.extend_from_slice(succs)?;
        self.rows.push(GatheredRow {
            id,
            op,
            succs: succs.len() as u64,
        })?;
        self.failed = false;
        Ok(())
    }

    /// Appends the row with these fields and successors, which needn't be lent for as long as those that are gathered: these
    /// are written before it.
    pub fn push_apart(&mut self, row: RowFields<'_>, succs: &[IdRef<'_>]) -> Result<(), AllocError>
        requires row { IsRowFor self.old.0 (row_with row (map id_of succs.now)) }
        requires room { IfSome self.old.1 (λ rows. HasRoom rows (map id_of succs.now)) }
        ensures actors { self.new.0 ≡ self.old.0 }
        ensures failed { IfNone self.old.1 ((self.new.1 ≡ None) × IsErr result) }
        ensures ok { OnOk result (IfSome self.old.1 (λ rows. self.new.1 ≡ Some (rows ++ row_with row.entry (map id_of succs.now) ∷ []))) }
        ensures err { OnErr result (self.new.1 ≡ None) }
    {
        if self.failed {
            return Err(AllocError);
        }
        self.failed = true;
        write_out(&mut self.writer, &mut self.rows, &mut self.succs)?;
        self.writer.push_lent(row, succs)?;
        self.failed = false;
        Ok(())
    }

    /// Takes the next n rows out of the cursor, as that many pushes, by runs: a long stretch of equal fields costs few
    /// steps.
    pub fn take(&mut self, from: &mut RowCursor<'_>, n: u64) -> Result<(), AllocError>
        requires enough { n ≤ length from.old }
        requires rows { AllByRecursion (IsRowFor self.old.0) (take n from.old) }
        requires room { IfSome self.old.1 (λ rows. HasRoomFor rows (take n from.old)) }
        ensures actors { self.new.0 ≡ self.old.0 }
        ensures failed { IfNone self.old.1 ((self.new.1 ≡ None) × IsErr result) }
        ensures ok { OnOk result (IfSome self.old.1 (λ rows. self.new.1 ≡ Some (rows ++ take n from.old))) }
        ensures behind { OnOk result (from.new ≡ drop n from.old) }
        ensures err { OnErr result (self.new.1 ≡ None) }
    {
        if self.failed {
            return Err(AllocError);
        }
        self.failed = true;
        write_out(&mut self.writer, &mut self.rows, &mut self.succs)?;
        self.writer.take(from, n)?;
        self.failed = false;
        Ok(())
    }

    /// The metadata and the body of the rows' columns, each in its one canonical spelling.
    pub fn finish(self) -> Result<(Bytes, Bytes), AllocError>
        ensures failed { IfNone self.entry.1 (IsErr result) }
        ensures metadata { IfOk result (λ text. IfSome self.entry.1 (λ rows. text.0 ≡ metadata (listing (written_rows self.entry.0 rows)))) }
        ensures body { IfOk result (λ text. IfSome self.entry.1 (λ rows. text.1 ≡ body (written_rows self.entry.0 rows))) }
    {
        if self.failed {
            return Err(AllocError);
        }
        let mut writer = self.writer;
        let mut rows = self.rows;
        let mut succs = self.succs;
        // (a writer that wanted memory finishes nothing)
        let _written = write_out(&mut writer, &mut rows, &mut succs);
        writer.finish()
    }
}
