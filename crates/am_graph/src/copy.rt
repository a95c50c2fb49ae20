//! Copies of a graph.
ghost use Rattle.std.specs.Prelude.{◌≡◌, IfOk};
ghost use Rattle.am_graph.specs.Graphs.{IsSound};
ghost use Rattle.am_graph.specs.Whole.{IsWhole};

use crate::graph::Graph;
use crate::node::Node;
use crate::parts::Parts;
use am_types::{Hash, Twin};
use indexmap::IndexMap;
use std::alloc::{AllocError, Global};

impl Twin for Graph {
    fn copy(&self, alloc: Global) -> Result<Graph, AllocError> {
        let parts = self.parts.copy(alloc)?;
        Ok(Graph { parts })
    }
}

impl Parts {
    // The same changes and what is kept beside them, in memory of their own.
    fn copy(&self, alloc: Global) -> Result<Parts, AllocError>
        requires { IsWhole self.now }
        ensures whole { IfOk result (λ parts. IsWhole parts) }
        ensures held { IfOk result (λ parts. parts.held.entries ≡ self.now.held.entries) }
    {
        let held = copy_changes(alloc, &self.held)?;
        let marks = self.marks.clone()?;
        let authors = self.authors.copy(alloc)?;
        let firsts = self.firsts.clone()?;
        Ok(Parts {
            held,
            marks,
            authors,
            firsts,
        })
    }
}

// The same changes in the same order.
fn copy_changes(
    alloc: Global,
    held: &IndexMap<Hash, Node>,
) -> Result<IndexMap<Hash, Node>, AllocError>
    requires { IsSound held.now.entries }
    ensures { IfOk result (λ copy. copy.entries ≡ held.now.entries) }
{
    let mut copy: IndexMap<Hash, Node> = IndexMap::new(alloc);
    copy.reserve(held.len())?;
    for i in 0..held.len() {
        let (hash, node) = held.get_index(i).unwrap();
        copy.insert(*hash, node.copy(alloc)?)?;
    }
    Ok(copy)
}
