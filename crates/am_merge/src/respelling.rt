//! The canonical document of a set, from any document of it.
ghost use Rattle.std.specs.Prelude.{◌≡◌, ◌≤◌, [], List, length, IfOk, map};
ghost use Rattle.std.specs.List.{AllByRecursion};
ghost use Rattle.am_types.specs.Documents.{table};
ghost use Rattle.am_types.specs.Members.{Member};
ghost use Rattle.am_types.specs.Limits.{most_operations};
ghost use Rattle.am_colmeta.specs.Metadata.{metadata, listing, body as columns_body};
ghost use Rattle.am_doc.specs.Contents.{body};
ghost use Rattle.am_doccols.specs.Columns.{written_rows};
ghost use Rattle.am_doccols.specs.Conditions.{IsRowFor, succ_count};
ghost use Rattle.am_merge.specs.Grown.{Respells, MayRespell};

use crate::actors::authors_once;
use crate::documents::merged_with;
use crate::laws::authors_of_larger;
use am_doc::{DocRef, sets_are_writable};
use am_doccols::{MetaCursor, RowCursor, RowWriter};
use am_graph::Graph;
use am_types::{ActorId, Bytes, Change};
use std::alloc::{AllocError, Global};

// No change rows: what is left of these behind the last.
fn behind_all<'a>(rows: MetaCursor<'a>) -> MetaCursor<'a>
    ensures { result ≡ [] }
{
    let mut rest = rows;
    'rows: while let Some(_) = rest.next() {}
    rest
}

// The metadata and the body of the columns of the rows that are left in the cursor, with places in this list of actors.
fn text_of(
    alloc: Global,
    actors: &[ActorId],
    from: &mut RowCursor<'_>,
) -> Result<(Bytes, Bytes), AllocError>
    requires fit { AllByRecursion (IsRowFor actors.now) from.old }
    requires few { length from.old ≤ most_operations }
    requires few_succs { succ_count from.old ≤ most_operations }
    ensures metadata { IfOk result (λ text. text.0 ≡ metadata (listing (written_rows actors.now from.old))) }
    ensures body { IfOk result (λ text. text.1 ≡ columns_body (written_rows actors.now from.old)) }
{
    let mut writer = RowWriter::new(alloc, actors)?;
    let count = from.left();
    // (no way out lets go of the writer, whose proof would take long)
    let all = writer.take(from, count);
    all.and(writer.finish())
}

// The metadata and the body of the columns of these rows, with places in this list of actors.
fn rows_over(
    alloc: Global,
    actors: &[ActorId],
    rows: RowCursor<'_>,
) -> Result<(Bytes, Bytes), AllocError>
    requires fit { AllByRecursion (IsRowFor actors.now) rows }
    requires few { length rows ≤ most_operations }
    requires few_succs { succ_count rows ≤ most_operations }
    ensures metadata { IfOk result (λ text. text.0 ≡ metadata (listing (written_rows actors.now rows.entry))) }
    ensures body { IfOk result (λ text. text.1 ≡ columns_body (written_rows actors.now rows.entry)) }
{
    let mut from = rows;
    text_of(alloc, actors, &mut from)
}

/// The contents of the canonical document of a set, from any document of it, which is read in place, and the set's changes in the
/// order of the graph. Operation rows go over by runs, and no change is read but for its change row. It takes time in the runs of
/// the columns, and in n log n of n changes.
pub fn respelled(
    alloc: Global,
    doc: &DocRef<'_>,
    changes: &[&Change],
    graph: &Graph,
) -> Result<Bytes, AllocError>
    requires { MayRespell doc.now (map (λ c. c.now) changes.now) graph.now }
    ensures { IfOk result (λ bytes. (C : List Member) → Respells doc.now (map (λ c. c.now) changes.now) graph.now C → bytes ≡ body (table C)) }
{
    authors_of_larger();
    sets_are_writable();
    let actors = authors_once(alloc, changes)?;
    let rows = rows_over(alloc, actors.as_slice(), doc.rows())?;
    merged_with(
        alloc,
        behind_all(doc.metas()),
        changes,
        graph,
        actors.as_slice(),
        &rows,
    )
}
