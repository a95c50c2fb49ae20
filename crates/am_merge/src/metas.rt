//! The change rows of a larger set, written to their columns.
ghost use Rattle.std.specs.Prelude.{◌≡◌, ◌≤◌, ◌++◌, ◌∷◌, [], ℕ, List, All, Some, map, option_map, length, IfOk, IfSome, OnOk};
ghost use Rattle.std.specs.List.{AllByRecursion};
ghost use Rattle.am_types.specs.Documents.{meta_of as row_of};
ghost use Rattle.am_types.specs.Fine.{Fine};
ghost use Rattle.am_types.specs.Limits.{most_changes, most_operations};
ghost use Rattle.am_colmeta.specs.Metadata.{metadata, listing, body};
ghost use Rattle.am_doccols.specs.Columns.{written_metas};
ghost use Rattle.am_doccols.specs.Conditions.{IsMetaFor, HasMetaRoom, dep_count};
ghost use Rattle.am_doccols.specs.Front.{HasMetaRoomFor};
ghost use Rattle.am_doccols.specs.Lent.{meta_with};
ghost use Rattle.am_doccols.specs.Metas.{meta_of};
ghost use Rattle.am_merge.specs.ChangeRows.{row_in, moved_to, moved_by, pushed, left, change_rows};

use crate::lookup::Places;
use crate::order::places_of_old;
use am_doccols::{IndexCursor, MetaCursor, MetaFields, MetaRef, MetaWriter};
use am_types::{ActorId, Bytes, Change};
use std::alloc::{AllocError, Global};

// The fields of the change row of a change.
fn fields_in<'a>(change: &'a Change) -> MetaFields<'a>
    requires { Fine change.now }
    ensures { (deps : List ℕ) → meta_with result deps ≡ row_of change.now deps }
{
    MetaFields {
        actor: change.actor.as_slice(),
        seq: change.seq,
        max: change.start + change.ops.len() as u64 - 1,
        time: change.time,
        message: change.message.as_str(),
        extra: change.extra.as_slice(),
    }
}

// Appends the change row of an added change.
fn push_new(
    alloc: Global,
    writer: &mut MetaWriter,
    change: &Change,
    places: &Places<'_>,
) -> Result<(), AllocError>
    requires fine { Fine change.now }
    requires row { IsMetaFor writer.old.0 (row_in places.now change.now) }
    requires room { IfSome writer.old.1 (λ metas. HasMetaRoom metas (row_in places.now change.now).deps) }
    ensures actors { writer.new.0 ≡ writer.old.0 }
    ensures ok { OnOk result (IfSome writer.old.1 (λ metas. writer.new.1 ≡ Some (metas ++ row_in places.now change.now ∷ []))) }
{
    let deps = places.each(alloc, change.deps.as_slice())?;
    writer.push_lent(fields_in(change), deps.as_slice())
}

// The place that a change row has moved to.
fn place_after(places: &[u64], i: u64) -> u64
    ensures { result ≡ moved_to places.now i }
{
    match places.get(i as usize) {
        Some(place) => *place,
        None => 0,
    }
}

// Puts the places to which dependencies have moved into the list, instead of those that it held.
fn move_places(
    moved: &mut Vec<u64>,
    from: IndexCursor<'_>,
    places: &[u64],
) -> Result<(), AllocError>
    ensures { OnOk result (moved.new.items ≡ map (moved_to places.now) from.entry) }
{
    moved.clear();
    let mut rest = from;
    while let Some(i) = rest.next() {
        moved.push(place_after(places, i))?;
    }
    Ok(())
}

// Appends a change row that was there; `moved` is room for the places of its dependencies.
fn push_old(
    writer: &mut MetaWriter,
    row: MetaRef<'_>,
    places: &[u64],
    moved: &mut Vec<u64>,
) -> Result<(), AllocError>
    requires row { IsMetaFor writer.old.0 (moved_by places.now (meta_of row)) }
    requires room { IfSome writer.old.1 (λ metas. HasMetaRoom metas (map (moved_to places.now) row.deps)) }
    ensures actors { writer.new.0 ≡ writer.old.0 }
    ensures ok { OnOk result (IfSome writer.old.1 (λ metas. writer.new.1 ≡ Some (metas ++ moved_by places.now (meta_of row.entry) ∷ []))) }
{
    let fields = row.fields();
    move_places(moved, row.deps, places)?;
    writer.push_lent(fields, moved.as_slice())
}

// Appends the row of a turn: that of its change, or the next of those that were there, whose dependencies have moved to
// the places `old_places`.
fn push_turn(
    alloc: Global,
    writer: &mut MetaWriter,
    turn: Option<&Change>,
    rest: &mut MetaCursor<'_>,
    places: &Places<'_>,
    old_places: &[u64],
    moved: &mut Vec<u64>,
) -> Result<(), AllocError>
    requires fine { IfSome turn (λ c. Fine c.now) }
    requires rows { AllByRecursion (IsMetaFor writer.old.0) (pushed (row_in places.now) (moved_by old_places.now) (option_map (λ c. c.now) turn) rest.old) }
    requires room { IfSome writer.old.1 (λ metas. HasMetaRoomFor metas (pushed (row_in places.now) (moved_by old_places.now) (option_map (λ c. c.now) turn) rest.old)) }
    ensures actors { OnOk result (writer.new.0 ≡ writer.old.0) }
    ensures ok { OnOk result (IfSome writer.old.1 (λ metas. writer.new.1 ≡ Some (metas ++ pushed (row_in places.now) (moved_by old_places.now) (option_map (λ c. c.now) turn.entry) rest.old))) }
    ensures rest { OnOk result (rest.new ≡ left (option_map (λ c. c.now) turn.entry) rest.old) }
{
    if let Some(change) = turn {
        return push_new(alloc, writer, change, places);
    }
    match rest.next() {
        Some(row) => push_old(writer, row, old_places, moved),
        None => Ok(()),
    }
}

// Appends the rows of the turns: those of the added changes, and between them the old ones.
fn push_turns(
    alloc: Global,
    writer: &mut MetaWriter,
    turns: &[Option<&Change>],
    rest: &mut MetaCursor<'_>,
    places: &Places<'_>,
) -> Result<(), AllocError>
    requires empty { writer.old.1 ≡ Some [] }
    requires fine { All (λ t. IfSome t (λ c. Fine c.now)) turns.now }
    requires all { AllByRecursion (IsMetaFor writer.old.0) (change_rows places.now (map (option_map (λ c. c.now)) turns.now) rest.old) }
    requires few { length (change_rows places.now (map (option_map (λ c. c.now)) turns.now) rest.old) ≤ most_changes }
    requires few_deps { dep_count (change_rows places.now (map (option_map (λ c. c.now)) turns.now) rest.old) ≤ most_operations }
    ensures actors { OnOk result (writer.new.0 ≡ writer.old.0) }
    ensures rows { OnOk result (writer.new.1 ≡ Some (change_rows places.now (map (option_map (λ c. c.now)) turns.now) rest.old)) }
{
    let old_places = places_of_old(alloc, turns)?;
    let mut moved = Vec::new(alloc);
    for i in 0..turns.len() {
        push_turn(
            alloc,
            writer,
            turns[i],
            rest,
            places,
            old_places.as_slice(),
            &mut moved,
        )?;
    }
    Ok(())
}

// The metadata and the body of the columns of the rows of the turns, between which the old ones come out of the cursor.
fn text_with(
    alloc: Global,
    actors: &[ActorId],
    turns: &[Option<&Change>],
    rest: &mut MetaCursor<'_>,
    places: &Places<'_>,
) -> Result<(Bytes, Bytes), AllocError>
    requires fine { All (λ t. IfSome t (λ c. Fine c.now)) turns.now }
    requires all { AllByRecursion (IsMetaFor actors.now) (change_rows places.now (map (option_map (λ c. c.now)) turns.now) rest.old) }
    requires few { length (change_rows places.now (map (option_map (λ c. c.now)) turns.now) rest.old) ≤ most_changes }
    requires few_deps { dep_count (change_rows places.now (map (option_map (λ c. c.now)) turns.now) rest.old) ≤ most_operations }
    ensures metadata { IfOk result (λ text. text.0 ≡ metadata (listing (written_metas actors.now (change_rows places.now (map (option_map (λ c. c.now)) turns.now) rest.old)))) }
    ensures body { IfOk result (λ text. text.1 ≡ body (written_metas actors.now (change_rows places.now (map (option_map (λ c. c.now)) turns.now) rest.old))) }
{
    let mut writer = MetaWriter::new(alloc, actors)?;
    // (no way out lets go of the writer, whose proof would take long)
    let all = push_turns(alloc, &mut writer, turns, rest, places);
    all.and(writer.finish())
}

/// The metadata and the body of the columns of the change rows of a larger set: in the order of the turns those of the added
/// changes, and between them the old ones. The places are those of all changes.
pub fn metas_text(
    alloc: Global,
    actors: &[ActorId],
    turns: &[Option<&Change>],
    old: MetaCursor<'_>,
    places: &Places<'_>,
) -> Result<(Bytes, Bytes), AllocError>
    requires fine { All (λ t. IfSome t (λ c. Fine c.now)) turns.now }
    requires all { AllByRecursion (IsMetaFor actors.now) (change_rows places.now (map (option_map (λ c. c.now)) turns.now) old) }
    requires few { length (change_rows places.now (map (option_map (λ c. c.now)) turns.now) old) ≤ most_changes }
    requires few_deps { dep_count (change_rows places.now (map (option_map (λ c. c.now)) turns.now) old) ≤ most_operations }
    ensures metadata { IfOk result (λ text. text.0 ≡ metadata (listing (written_metas actors.now (change_rows places.now (map (option_map (λ c. c.now)) turns.now) old.entry)))) }
    ensures body { IfOk result (λ text. text.1 ≡ body (written_metas actors.now (change_rows places.now (map (option_map (λ c. c.now)) turns.now) old.entry))) }
{
    let mut rest = old;
    text_with(alloc, actors, turns, &mut rest, places)
}
