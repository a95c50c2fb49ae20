//! The contents of the document of a larger set.
ghost use Rattle.std.specs.Prelude.{◌≡◌, ◌++◌, List, IfOk, map};
ghost use Rattle.am_types.specs.Documents.{table, used_actors};
ghost use Rattle.am_types.specs.Members.{Member};
ghost use Rattle.am_types.specs.Rows.{rows as rows_of};
ghost use Rattle.am_colmeta.specs.Metadata.{metadata, listing, body as columns_body};
ghost use Rattle.am_doccols.specs.Columns.{written_rows};
ghost use Rattle.am_doc.specs.Contents.{body};
ghost use Rattle.am_merge.specs.Grown.{Joins, MayJoin, Merges, MayMerge};
ghost use Rattle.am_merge.specs.Laws.{operations_of};

use crate::actors::actors_once;
use crate::laws::{authors_of_larger, metas_of_larger};
use crate::lookup::Places;
use crate::metas::metas_text;
use crate::order::turns_of;
use crate::rows::rows_text;
use crate::suffix::suffix_of;
use am_doc::{DocRef, joined, sets_are_writable};
use am_doccols::MetaCursor;
use am_graph::Graph;
use am_laws::valid_sets_keep_rules;
use am_types::{ActorId, Bytes, Change};
use std::alloc::{AllocError, Global};

/// The contents of the document of the larger set: the change rows of the smaller one and the added changes, with these
/// actors and these columns of rows.
pub(crate) fn merged_with(
    alloc: Global,
    old: MetaCursor<'_>,
    added: &[&Change],
    after: &Graph,
    actors: &[ActorId],
    rows: &(Bytes, Bytes),
) -> Result<Bytes, AllocError>
    requires { MayJoin old actors.now (map (λ c. c.now) added.now) after.now }
    ensures { IfOk result (λ bytes. (C E : List Member) → Joins old.entry actors.now (map (λ c. c.now) added.now) after.now C E
        → rows.now.0 ≡ metadata (listing (written_rows (used_actors (C ++ E)) (rows_of (operations_of (C ++ E)))))
        → rows.now.1 ≡ columns_body (written_rows (used_actors (C ++ E)) (rows_of (operations_of (C ++ E))))
        → bytes ≡ body (table (C ++ E))) }
{
    valid_sets_keep_rules();
    sets_are_writable();
    metas_of_larger();
    let heads = after.heads(alloc)?;
    let hashes = after.order(alloc)?;
    let places = Places::of(alloc, hashes.as_slice())?;
    let turns = turns_of(alloc, after, old.left() as usize, added, hashes.as_slice())?;
    let metas = metas_text(alloc, actors, turns.as_slice(), old, &places)?;
    let suffix = suffix_of(alloc, heads.as_slice(), &places)?;
    joined(alloc, actors, heads.as_slice(), &metas, rows, &suffix)
}

/// The contents of the document of a larger set, from the document of the smaller one, which is read in place, and the
/// added changes. The graph is that of both, and lists the changes of the document first. One walk over the old rows decides
/// where what is added goes, and a second pass writes, stretches that nothing is added to by runs; no old row is taken apart
/// into owned parts. Where there are none, rows are written as the walk goes. It takes time in n log m + m log m, of n old
/// rows and m added operations and what they name, and beside that in the number of changes times that of actors.
pub fn merge(
    alloc: Global,
    doc: &DocRef<'_>,
    added: &[&Change],
    after: &Graph,
) -> Result<Bytes, AllocError>
    requires { MayMerge doc.now (map (λ c. c.now) added.now) after.now }
    ensures { IfOk result (λ bytes. (C E : List Member) → Merges doc.now (map (λ c. c.now) added.now) after.now C E → bytes ≡ body (table (C ++ E))) }
{
    authors_of_larger();
    sets_are_writable();
    let actors = actors_once(alloc, doc, added)?;
    let rows = rows_text(alloc, actors.as_slice(), doc.rows(), added)?;
    merged_with(alloc, doc.metas(), added, after, actors.as_slice(), &rows)
}
