//! Rebuilding the changes of a document.
ghost use Rattle.std.specs.Prelude.{◌≡◌, All, IfOk, vec_items};
ghost use Rattle.am_types.specs.declared.Table.{Table as ATable};
ghost use Rattle.am_types.specs.Deliver.{MayCome};
ghost use Rattle.am_types.specs.ValidSets.{Valid};
ghost use Rattle.am_fits.specs.Indexes.{AreOf};
ghost use Rattle.am_change.specs.Hashes.{own_hash};
ghost use Rattle.am_delivery.specs.Waiting.{members_of};
ghost use Rattle.am_doc.specs.Sound.{IsSound};
ghost use Rattle.am_rebuild.specs.Judged.{IsJudged};
ghost use Rattle.am_rebuild.specs.Documents.{Rebuilds, bare, changes_rebuilt, without_hashes, AreOwn};

use crate::copying::{actors_in, metas_in};
use crate::fault::RebuildFault;
use crate::gathered::Gathered;
use crate::judgement::{Judgement, LentTable, judge_lent};
use crate::lent::rows_in;
use crate::rebuilt::Rebuilt;
use am_doc::{DocRef, spelled_tables_are_sound};
use am_types::{Change, Hash, List};
use std::alloc::{AllocError, Global};

// The stated heads, owned.
fn heads_in(alloc: Global, doc: &DocRef<'_>) -> Result<List<Hash>, AllocError>
    ensures { IfOk result (λ heads. heads ≡ doc.now.heads) }
{
    let mut heads = List::new(alloc);
    for i in 0..doc.head_count() {
        match doc.head(i) {
            Some(hash) => heads.push(hash)?,
            None => unreachable!(),
        }
    }
    Ok(heads)
}

// The answer for the document, whose rows are let go behind it.
fn answered(alloc: Global, doc: &DocRef<'_>) -> Result<Rebuilt, RebuildFault>
    requires { IsSound doc.now }
    ensures judged { Rebuilds doc.now (changes_rebuilt result) }
    ensures own_hashes { IfOk result (λ r. AreOwn (vec_items r.entries)) }
    ensures may_come { IfOk result (λ r. All MayCome (members_of (vec_items r.entries))) }
    ensures of_set { IfOk result (λ r. AreOf (members_of (vec_items r.entries)) r.graph r.index) }
    ensures valid { IfOk result (λ r. Valid (members_of (vec_items r.entries))) }
{
    let actors = actors_in(alloc, doc.actors())?;
    let heads = heads_in(alloc, doc)?;
    let metas = metas_in(alloc, doc.metas())?;
    let rows = rows_in(alloc, doc.rows())?;
    let mut gathered = Gathered::new(alloc);
    let table = LentTable {
        actors: actors.as_slice(),
        heads: heads.as_slice(),
        metas: metas.as_slice(),
        rows: &rows,
    };
    let judgement = judge_lent(alloc, &mut gathered, table)?;
    answer(alloc, gathered, judgement)
}

// What is answered where this is found.
fn answer(
    alloc: Global,
    gathered: Gathered<'_>,
    judgement: Judgement,
) -> Result<Rebuilt, RebuildFault>
    ensures judged { (t : ATable) → IsJudged own_hash (bare t) gathered.entry judgement → Rebuilds t (changes_rebuilt result) }
    ensures own_hashes { (t : ATable) → IsJudged own_hash (bare t) gathered.entry judgement → IfOk result (λ r. AreOwn (vec_items r.entries)) }
    ensures may_come { (t : ATable) → IsJudged own_hash (bare t) gathered.entry judgement → IfOk result (λ r. All MayCome (members_of (vec_items r.entries))) }
    ensures of_set { IfOk result (λ r. AreOf (members_of (vec_items r.entries)) r.graph r.index) }
    ensures valid { IfOk result (λ r. Valid (members_of (vec_items r.entries))) }
{
    match judgement {
        Judgement::Whole => Ok(gathered.into_rebuilt(alloc)?),
        Judgement::OtherHeads(hash) => Err(RebuildFault::HeadsMismatch(hash)),
        Judgement::NoHistory => Err(RebuildFault::NoHistory),
    }
}

// The same as `rebuild_whole`, of a document that is lent, so that its proof doesn't let go of each cursor of it.
fn rebuilt_from(alloc: Global, doc: &DocRef<'_>) -> Result<Rebuilt, RebuildFault>
    ensures judged { Rebuilds doc.now (changes_rebuilt result) }
    ensures own_hashes { IfOk result (λ r. AreOwn (vec_items r.entries)) }
    ensures may_come { IfOk result (λ r. All MayCome (members_of (vec_items r.entries))) }
    ensures of_set { IfOk result (λ r. AreOf (members_of (vec_items r.entries)) r.graph r.index) }
    ensures valid { IfOk result (λ r. Valid (members_of (vec_items r.entries))) }
{
    doc.is_spelled();
    spelled_tables_are_sound();
    answered(alloc, doc)
}

/// The changes of which a document tells, each behind its own hash, in the order of its change rows, with the graph and the
/// index that were built of them. Refused as `rebuild` is.
pub fn rebuild_whole(alloc: Global, doc: DocRef<'_>) -> Result<Rebuilt, RebuildFault>
    ensures judged { Rebuilds doc.entry (changes_rebuilt result) }
    ensures own_hashes { IfOk result (λ r. AreOwn (vec_items r.entries)) }
    ensures may_come { IfOk result (λ r. All MayCome (members_of (vec_items r.entries))) }
    ensures of_set { IfOk result (λ r. AreOf (members_of (vec_items r.entries)) r.graph r.index) }
    ensures valid { IfOk result (λ r. Valid (members_of (vec_items r.entries))) }
{
    rebuilt_from(alloc, &doc)
}

// The changes, each behind its own hash, without the graph and the index.
fn hashed(alloc: Global, doc: DocRef<'_>) -> Result<Vec<(Hash, Change)>, RebuildFault>
    ensures judged { Rebuilds doc.entry (without_hashes result) }
{
    let rebuilt = rebuild_whole(alloc, doc)?;
    Ok(rebuilt.entries)
}

/// The changes of which a document tells, in the order of its change rows. NoHistory where it tells of none, in that no valid
/// set of changes has these rows and change rows; HeadsMismatch where it does, and states other heads than theirs.
pub fn rebuild(alloc: Global, doc: DocRef<'_>) -> Result<List<Change>, RebuildFault>
    ensures judged { Rebuilds doc.entry result }
{
    let pairs = hashed(alloc, doc)?;
    let mut changes = List::new(alloc);
    for (_, change) in pairs {
        changes.push(change)?;
    }
    Ok(changes)
}
