//! The rows of a first document: there are no old ones, so each new one is written once its operation comes.
ghost use Rattle.std.specs.Prelude.{◌≡◌, ◌≤◌, ◌<◌, ◌++◌, ◌∷◌, [], All, Some, length, map, IfOk, IfSome, OnOk};
ghost use Rattle.am_types.specs.Operations.{Operation, ascending};
ghost use Rattle.am_types.specs.Rows.{succs};
ghost use Rattle.am_types.specs.Limits.{most_operations};
ghost use Rattle.am_places.specs.Numbered.{operation_of};
ghost use Rattle.am_places.specs.Rising.{Rise};
ghost use Rattle.am_places.specs.Sound.{HaveDistinctPreds};
ghost use Rattle.am_colmeta.specs.Metadata.{metadata, listing, body};
ghost use Rattle.am_doccols.specs.Columns.{written_rows};
ghost use Rattle.am_doccols.specs.Conditions.{HasRoom, IsRowFor};
ghost use Rattle.am_merge.specs.Aims.{AreAims, Tells, means_element, means_id, one_at, stacked_at};
ghost use Rattle.am_merge.specs.Carrying.{CanCarry};
ghost use Rattle.am_merge.specs.Naming.{predecessors, references};
ghost use Rattle.am_merge.specs.Plans.{carried};
ghost use Rattle.am_merge.specs.Walk.{beginning, behind, hanging, new_row, spot_of, walk_out};

use crate::added::beginning_places;
use crate::aims::{Aim, Aims};
use crate::guide::Guide;
use crate::overview::{Overview, look_over};
use am_doccols::RowGatherer;
use am_places::Numbered;
use am_types::{ActorId, Bytes, IdRef, MOST_OPERATIONS};
use std::alloc::{AllocError, Global};

// The row of an operation at a place. The list is there for its room.
fn put_at<'a>(
    room: &mut Vec<IdRef<'a>>,
    writer: &mut RowGatherer<'a>,
    operations: &[Numbered<'a>],
    named: &Aims,
    at: usize,
    y: &Numbered<'a>,
) -> Result<(), AllocError>
    requires there { one_at (map operation_of operations.now) at ≡ operation_of y.now ∷ [] }
    requires at { at < length operations.now }
    requires ascends { ascending (map operation_of operations.now) ≡ map operation_of operations.now }
    requires distinct { HaveDistinctPreds (map operation_of operations.now) }
    requires named { Tells means_id (map operation_of operations.now) (predecessors (map operation_of operations.now)) named.now }
    requires row { IsRowFor writer.old.0 (new_row (map operation_of operations.now) (operation_of y.now)) }
    requires room { IfSome writer.old.1 (λ rows. HasRoom rows (succs (map operation_of operations.now) (operation_of y.now).id)) }
    ensures actors { writer.new.0 ≡ writer.old.0 }
    ensures ok { OnOk result (IfSome writer.old.1 (λ rows. writer.new.1 ≡ Some (rows ++ new_row (map operation_of operations.now) (operation_of y.now) ∷ []))) }
{
    room.clear();
    named.push_ids(room, operations, at)?;
    writer.push_op(y.id(), y.op, room.as_slice())?;
    Ok(())
}

// Once the operation at a place has come, what names it as an element waits.
fn push_hung(
    waiting: &mut Vec<u32>,
    operations: &[Numbered<'_>],
    hung: &Aims,
    at: usize,
) -> Result<(), AllocError>
    requires at { at < length operations.now }
    requires hung { Tells means_element (map operation_of operations.now) (references (hanging (map operation_of operations.now))) hung.now }
    requires within { All (λ k. k < length operations.now) waiting.old.items }
    ensures within { OnOk result (All (λ k. k < length operations.now) waiting.new.items) }
    ensures behind { OnOk result ((x : Operation) → one_at (map operation_of operations.now) at ≡ x ∷ []
        → stacked_at (map operation_of operations.now) waiting.new.items ≡ behind (map operation_of operations.now) (spot_of x) (stacked_at (map operation_of operations.now) waiting.old.items)) }
{
    hung.push_places(waiting, at)?;
    Ok(())
}

// The operations come, each with those that it brings: the place of the next is on top of a stack.
fn put_all<'a>(
    alloc: Global,
    writer: &mut RowGatherer<'a>,
    operations: &[Numbered<'a>],
    named: &Aims,
    hung: &Aims,
    waiting: &mut Vec<u32>,
) -> Result<(), AllocError>
    requires places { stacked_at (map operation_of operations.now) waiting.old.items ≡ beginning (map operation_of operations.now) }
    requires within { All (λ k. k < length operations.now) waiting.old.items }
    requires rise { Rise (map operation_of operations.now) }
    requires few { length operations.now ≤ most_operations }
    requires ascends { ascending (map operation_of operations.now) ≡ map operation_of operations.now }
    requires distinct { HaveDistinctPreds (map operation_of operations.now) }
    requires named { Tells means_id (map operation_of operations.now) (predecessors (map operation_of operations.now)) named.now }
    requires hung { Tells means_element (map operation_of operations.now) (references (hanging (map operation_of operations.now))) hung.now }
    requires start { writer.old.1 ≡ Some [] }
    requires can { CanCarry writer.old.0 writer.old.1 (walk_out (map operation_of operations.now) most_operations (beginning (map operation_of operations.now))) [] }
    ensures actors { OnOk result (writer.new.0 ≡ writer.old.0) }
    ensures rows { OnOk result (writer.new.1 ≡ Some (carried (walk_out (map operation_of operations.now) most_operations (beginning (map operation_of operations.now))) [])) }
{
    let mut room = Vec::new(alloc);
    let mut left = MOST_OPERATIONS;
    'rest: while left > 0 {
        let Some(place) = waiting.pop() else {
            return Ok(());
        };
        left -= 1;
        let at = place as usize;
        let y = operations[at];
        put_at(&mut room, writer, operations, named, at, &y)?;
        push_hung(waiting, operations, hung, at)?;
    }
    Ok(())
}

// Who names whom as a predecessor.
fn named_among(
    alloc: Global,
    operations: &[Numbered<'_>],
    aims: Vec<Aim>,
) -> Result<Aims, AllocError>
    requires { AreAims means_id (map operation_of operations.now) (predecessors (map operation_of operations.now)) aims.items }
    ensures { IfOk result (Tells means_id (map operation_of operations.now) (predecessors (map operation_of operations.now))) }
{
    Aims::of(alloc, aims, operations.len())
}

// Who names which element.
fn hung_among(
    alloc: Global,
    operations: &[Numbered<'_>],
    aims: Vec<Aim>,
) -> Result<Aims, AllocError>
    requires { AreAims means_element (map operation_of operations.now) (references (hanging (map operation_of operations.now))) aims.items }
    ensures { IfOk result (Tells means_element (map operation_of operations.now) (references (hanging (map operation_of operations.now)))) }
{
    Aims::of(alloc, aims, operations.len())
}

// What is known of operations before the first row.
#[derive(Drop)]
struct Known {
    // Who names whom as a predecessor.
    named: Aims,
    // Who names which element.
    hung: Aims,
    // The places of those that wait, as a stack.
    waiting: Vec<u32>,
}

// All of it, from one pass.
fn known_of(alloc: Global, operations: &[Numbered<'_>]) -> Result<Known, AllocError>
    requires rise { Rise (map operation_of operations.now) }
    requires few { length operations.now ≤ most_operations }
    requires ascends { ascending (map operation_of operations.now) ≡ map operation_of operations.now }
    ensures named { IfOk result (λ k. Tells means_id (map operation_of operations.now) (predecessors (map operation_of operations.now)) k.named) }
    ensures hung { IfOk result (λ k. Tells means_element (map operation_of operations.now) (references (hanging (map operation_of operations.now))) k.hung) }
    ensures places { IfOk result (λ k. stacked_at (map operation_of operations.now) k.waiting.items ≡ beginning (map operation_of operations.now)) }
    ensures within { IfOk result (λ k. All (λ j. j < length operations.now) k.waiting.items) }
{
    let guide = Guide::of(alloc, operations)?;
    let Overview {
        named,
        hung,
        starts,
    } = look_over(alloc, operations, &guide)?;
    let waiting = beginning_places(alloc, operations, starts)?;
    let named = named_among(alloc, operations, named)?;
    let hung = hung_among(alloc, operations, hung)?;
    Ok(Known {
        named,
        hung,
        waiting,
    })
}

/// The metadata and the body of the columns of the operations' rows. Places name these actors.
pub fn fresh_text<'a>(
    alloc: Global,
    actors: &[ActorId],
    operations: &[Numbered<'a>],
) -> Result<(Bytes, Bytes), AllocError>
    requires rise { Rise (map operation_of operations.now) }
    requires few { length operations.now ≤ most_operations }
    requires ascends { ascending (map operation_of operations.now) ≡ map operation_of operations.now }
    requires distinct { HaveDistinctPreds (map operation_of operations.now) }
    requires can { CanCarry actors.now (Some []) (walk_out (map operation_of operations.now) most_operations (beginning (map operation_of operations.now))) [] }
    ensures metadata { IfOk result (λ text. text.0 ≡ metadata (listing (written_rows actors.now (carried (walk_out (map operation_of operations.now) most_operations (beginning (map operation_of operations.now))) [])))) }
    ensures body { IfOk result (λ text. text.1 ≡ body (written_rows actors.now (carried (walk_out (map operation_of operations.now) most_operations (beginning (map operation_of operations.now))) []))) }
{
    let mut known = known_of(alloc, operations)?;
    let mut writer = RowGatherer::new(alloc, actors)?;
    // (no way out lets go of the writer, whose proof would take long)
    let all = put_all(
        alloc,
        &mut writer,
        operations,
        &known.named,
        &known.hung,
        &mut known.waiting,
    );
    let text = writer.finish();
    match all {
        Ok(()) => text,
        Err(fault) => Err(fault),
    }
}
