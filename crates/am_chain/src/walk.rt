//! The elements of a chain, one after the other.
ghost use Rattle.std.specs.Prelude.{◌≡◌, ◌∷◌, [], MatchOption};
ghost use Rattle.am_types.specs.Views.{id_of};

use crate::node::Node;
use am_types::IdRef;
use std::marker::Model;

/// A walk along a chain. A contract sees the ids that are left.
#[derive(Drop)]
pub struct Walk<'a> {
    pub(crate) nodes: &'a [Node],
    pub(crate) at: Option<u32>,
}

impl<'a> Model for Walk<'a> {
    ghost use Rattle.std.specs.Prelude.{List};
    ghost use Rattle.am_types.specs.declared.OpId.{OpId};

    ghost Value = { List OpId };

    ghost use Rattle.am_chain.specs.Walks.{IsLeft, ids_left};

    ghost view = { ids_left };

    ghost invariant = { IsLeft };
}

impl<'a> Walk<'a> {
    /// The next id in the order of the list, until none is left.
    pub fn next(&mut self) -> Option<IdRef<'a>>
        ensures next { MatchOption result ((self.old ≡ []) × (self.new ≡ [])) (λ id. self.old ≡ id_of id ∷ self.new) }
    {
        match self.at {
            Some(node) => {
                let nodes = self.nodes;
                let passed = &nodes[node as usize];
                self.at = passed.next;
                Some(passed.id.lend())
            }
            None => None,
        }
    }
}
