//! The visible values of a valid set.
ghost use Rattle.std.specs.Prelude.{◌≡◌, IfOk};
ghost use Rattle.am_types.specs.Operations.{all_operations};
ghost use Rattle.am_types.specs.Replay.{replay};
ghost use Rattle.am_types.specs.ValidSets.{IsValidSet};

use crate::placed::read;
use am_places::ascending_operations;
use am_types::{Change, Document};
use std::alloc::{AllocError, Global};

/// The visible entries of a valid set of changes, listed in any order, in document order: by object, the root first, then
/// by the bytes of the name or the place of the element, then by id. It takes time in n log n, of n operations,
/// predecessors and bytes.
pub fn replay(alloc: Global, changes: &[Change]) -> Result<Document, AllocError>
    requires { IsValidSet changes.now }
    ensures { IfOk result (λ document. document.entries ≡ replay (all_operations changes.now)) }
{
    let operations = ascending_operations(alloc, changes)?;
    read(alloc, operations.as_slice())
}
