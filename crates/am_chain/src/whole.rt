//! A chain of a whole list of insertions.
ghost use Rattle.std.specs.Prelude.{◌≡◌, ◌≤◌, [], IfOk, IsPermutation, List, length, map};
ghost use Rattle.am_types.specs.Elements.{elements};
ghost use Rattle.am_types.specs.Operations.{OneOperationPerId, Operation};
ghost use Rattle.am_types.specs.declared.ObjId.{ObjId};
ghost use Rattle.am_types.specs.Limits.{most_operations};
ghost use Rattle.am_chain.specs.Passing.{into};
ghost use Rattle.am_chain.specs.Insertions.{AreInTurn, AreOperations, id_inserted};

use crate::chain::Chain;
use am_types::{OpId, Twin};
use std::alloc::{AllocError, Global};

/// An insertion: an id, and the number of the insertion behind which it goes, or the front.
#[derive(Drop)]
pub struct Insertion {
    /// One of those that come before this one, counted from 0.
    pub after: Option<u32>,
    /// The id of the element.
    pub id: OpId,
}

impl Chain {
    /// A chain of these elements, inserted one after the other. In whatever order they come, none before its reference,
    /// they stand in the order of elements.
    pub fn of(alloc: Global, insertions: &[Insertion]) -> Result<Chain, AllocError>
        requires turn { AreInTurn [] insertions.now }
        requires room { length insertions.now ≤ most_operations }
        ensures nodes { IfOk result (λ chain. chain.nodes ≡ map id_inserted insertions.now) }
        ensures elements { IfOk result (λ chain. (A : List Operation) (o : ObjId) (xs : List Operation) → AreOperations [] insertions.now xs → OneOperationPerId (into o A) → IsPermutation (into o A) xs → chain.walk ≡ elements A o) }
    {
        let mut chain = Chain::new(alloc);
        for i in 0..insertions.len() {
            let next = &insertions[i];
            chain.insert(next.after, next.id.copy(alloc)?)?;
        }
        Ok(chain)
    }
}
