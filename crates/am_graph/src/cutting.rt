//! The changes that came last leave a graph.
ghost use Rattle.std.specs.Prelude.{◌≡◌, ◌<◌, ◌-◌, List, length, take};
ghost use Rattle.am_types.specs.Members.{Member};
ghost use Rattle.am_types.specs.ValidSets.{Valid};
ghost use Rattle.am_graph.specs.Graphs.{nodes, HasDistinctSeqs};
ghost use Rattle.am_graph.specs.Whole.{IsWhole, Forgets, first_in};

use crate::graph::Graph;
use crate::parts::Parts;
use am_types::Hash;
use std::collections::BTreeMap;

impl Graph {
    /// Keeps the first `count` changes, in the order in which they came. It takes no memory.
    pub fn cut(&mut self, count: usize)
        requires { HasDistinctSeqs self.old }
        ensures { self.new ≡ take count self.old }
    {
        self.parts.cut(count);
    }
}

impl Parts {
    // Keeps the first `count` changes.
    fn cut(&mut self, count: usize)
        requires whole { IsWhole self.old }
        requires seqs { HasDistinctSeqs self.old.held.entries }
        ensures whole { IsWhole self.new }
        ensures held { self.new.held.entries ≡ take count self.old.held.entries }
    {
        'changes: while self.held.len() > count {
            self.drop_last();
        }
    }

    // The change that came last leaves.
    fn drop_last(&mut self)
        requires whole { IsWhole self.old }
        requires some { 0 < length self.old.held.entries }
        requires seqs { HasDistinctSeqs self.old.held.entries }
        ensures whole { IsWhole self.new }
        ensures held { self.new.held.entries ≡ take (length self.old.held.entries - 1) self.old.held.entries }
        ensures seqs { HasDistinctSeqs self.new.held.entries }
    {
        let last = self.held.len() - 1;
        let (_, node) = self.held.get_index(last).unwrap();
        forget(&mut self.firsts, self.marks[last].author, node.seq);
        self.marks.truncate(last);
        self.held.truncate(last);
    }
}

/// In a valid set no two changes have one author and one seq.
#[tactic(auto, using(crate::proofs::DistinctSeqs::distinct_seqs))]
pub fn valid_sets_have_distinct_seqs()
    ensures { (C : List Member) → Valid C → HasDistinctSeqs (nodes C) }
{}

// Keeps nothing any more for the author and the seq.
fn forget(firsts: &mut BTreeMap<(usize, u64), Hash>, author: usize, seq: u64)
    ensures { Forgets (first_in firsts.old) (first_in firsts.new) author seq }
{
    firsts.remove(&(author, seq));
}
