//! One pass over added operations, in which all is taken of each that is to be known before the walk.
ghost use Rattle.std.specs.Prelude.{◌≡◌, ◌≤◌, All, filter, length, map, IfOk};
ghost use Rattle.am_types.specs.Limits.{most_operations};
ghost use Rattle.am_places.specs.Numbered.{operation_of};
ghost use Rattle.am_places.specs.Rising.{Rise};
ghost use Rattle.am_merge.specs.Aims.{AreAims, means_element, means_id};
ghost use Rattle.am_merge.specs.Naming.{predecessors, references};
ghost use Rattle.am_merge.specs.Starts.{Stands};
ghost use Rattle.am_merge.specs.Walk.{hanging, starts};

use crate::added::push_start;
use crate::aiming::{push_insertion, push_predecessors, push_reversed, push_value};
use crate::aims::Aim;
use crate::guide::Guide;
use crate::starts::Start;
use am_places::Numbered;
use std::alloc::{AllocError, Global};

/// What one pass over operations finds.
#[derive(Drop)]
pub struct Overview<'t, 'a> {
    /// Who names whom as a predecessor.
    pub named: Vec<Aim>,
    /// Who names which element, in the order in which they are put on the stack.
    pub hung: Vec<Aim>,
    /// What starts.
    pub starts: Vec<Start<'t, 'a>>,
}

/// All is taken of an operation while it is at hand: there are too many to stay in a cache until a second pass.
pub fn look_over<'t, 'a>(
    alloc: Global,
    operations: &'t [Numbered<'a>],
    guide: &Guide,
) -> Result<Overview<'t, 'a>, AllocError>
    requires rise { Rise (map operation_of operations.now) }
    requires few { length operations.now ≤ most_operations }
    ensures named { IfOk result (λ o. AreAims means_id (map operation_of operations.now) (predecessors (map operation_of operations.now)) o.named.items) }
    ensures hung { IfOk result (λ o. AreAims means_element (map operation_of operations.now) (references (hanging (map operation_of operations.now))) o.hung.items) }
    ensures starts { IfOk result (λ o. map (λ s. s.operation) o.starts.items ≡ filter starts (map operation_of operations.now)) }
    ensures stand { IfOk result (λ o. All (Stands (map operation_of operations.now)) o.starts.items) }
{
    // (room that nothing comes into is never touched, and what grows is copied)
    let mut named = Vec::with_capacity(alloc, operations.len())?;
    let mut hung = Vec::with_capacity(alloc, operations.len())?;
    let mut values = Vec::new(alloc);
    let mut starts = Vec::with_capacity(alloc, operations.len())?;
    for place in 0..operations.len() {
        push_predecessors(&mut named, operations, guide, place)?;
        push_insertion(&mut hung, operations, guide, place)?;
        push_value(&mut values, operations, guide, place)?;
        push_start(&mut starts, &operations[place], place)?;
    }
    push_reversed(&mut hung, values)?;
    Ok(Overview {
        named,
        hung,
        starts,
    })
}
