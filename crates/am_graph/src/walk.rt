//! How far each author's changes go among the ancestors of some heads, by a walk from the heads.
ghost use Rattle.std.specs.Prelude.{◌≡◌, ◌||◌, ◌<◌, ◌≤◌, ◌+◌, ℕ, List, All, true, length, replicate, IfOk, OnOk, IfErr, Some, None};
ghost use Rattle.am_types.specs.Ancestors.{ancestors};
ghost use Rattle.am_graph.specs.Graphs.{is_held, missing, ForSet, IsSound, MatchFault};
ghost use Rattle.am_graph.specs.Reaches.{IsTableOf, unreached};
ghost use Rattle.am_graph.specs.Whole.{IsWhole, authors_of};
ghost use Rattle.am_graph.specs.Walks.{waits, is_place_of, Visits, WaitBefore};

use crate::fault::ClockFault;
use crate::node::Node;
use crate::parts::Parts;
use crate::places::{last_place, place_of};
use crate::reach::{Reach, raise, raise_all};
use am_types::Hash;
use indexmap::IndexMap;
use std::alloc::{AllocError, Global};
use std::collections::BTreeSet;

impl Parts {
    /// How far each author's changes go among the ancestors of these heads. Without heads there are none, and no table of all
    /// authors is made.
    pub fn reaches(&self, alloc: Global, heads: &[Hash]) -> Result<Vec<Reach>, ClockFault>
        requires { IsWhole self.now }
        ensures table { IfOk result (λ table. ForSet self.now.held.entries (λ C. IsTableOf (authors_of self.now) (ancestors C heads.now) table.items)) }
        ensures held { OnOk result (All (λ h. is_held self.now.held.entries h ≡ true) heads.now) }
        ensures unknown { IfErr result (λ fault. MatchFault fault (λ h. missing self.now.held.entries heads.now ≡ Some h)) }
    {
        if heads.is_empty() {
            return Ok(Vec::new(alloc));
        }
        self.table(alloc, heads, last_place(&self.held))
    }

    /// How far each author's changes go among the ancestors of these heads, which are looked for at the guess first.
    pub fn table(
        &self,
        alloc: Global,
        heads: &[Hash],
        guess: usize,
    ) -> Result<Vec<Reach>, ClockFault>
        requires { IsWhole self.now }
        ensures len { IfOk result (λ table. length table.items ≡ length (authors_of self.now)) }
        ensures table { IfOk result (λ table. ForSet self.now.held.entries (λ C. IsTableOf (authors_of self.now) (ancestors C heads.now) table.items)) }
        ensures held { OnOk result (All (λ h. is_held self.now.held.entries h ≡ true) heads.now) }
        ensures unknown { IfErr result (λ fault. MatchFault fault (λ h. missing self.now.held.entries heads.now ≡ Some h)) }
    {
        let mut pending: BTreeSet<usize> = BTreeSet::new(alloc);
        wait(&self.held, heads, guess, &mut pending)?;
        let mut table = blank(alloc, self.authors.len())?;
        for _ in 0..self.held.len() {
            let Some(place) = pending.pop_last() else {
                return Ok(table);
            };
            self.visit(place, &mut pending, table.as_mut_slice())?;
        }
        Ok(table)
    }

    // Takes the change at the place into the table; its dependencies wait, unless its own table is taken in whole.
    fn visit(
        &self,
        place: usize,
        pending: &mut BTreeSet<usize>,
        table: &mut [Reach],
    ) -> Result<(), ClockFault>
        requires whole { IsWhole self.now }
        requires place { place < length self.now.held.entries }
        requires len { length table.old ≡ length (authors_of self.now) }
        ensures walk { OnOk result (Visits self.now place pending.old table.old pending.new table.new) }
        ensures before { OnOk result (WaitBefore place pending.old pending.new) }
        ensures memory { IfErr result (λ fault. fault ≡ ClockFault.NoMemory) }
    {
        let (_, node) = self.held.get_index(place).unwrap();
        let mark = &self.marks[place];
        if let Some(kept) = &mark.kept {
            raise_all(table, kept.as_slice());
            return Ok(());
        }
        let own = Reach {
            seq: node.seq,
            end: node.start + node.count,
        };
        raise(table, mark.author, own);
        wait(&self.held, node.deps.as_slice(), mark.guess, pending)
    }
}

// Puts the places of the changes with these hashes among those that wait. They are looked for at the guess first.
fn wait(
    held: &IndexMap<Hash, Node>,
    hashes: &[Hash],
    guess: usize,
    pending: &mut BTreeSet<usize>,
) -> Result<(), ClockFault>
    requires { IsSound held.now.entries }
    ensures ok { OnOk result ((k : ℕ) → waits pending.new k ≡ (waits pending.old k || is_place_of held.now.entries hashes.now k)) }
    ensures held { OnOk result (All (λ h. is_held held.now.entries h ≡ true) hashes.now) }
    ensures unknown { IfErr result (λ fault. MatchFault fault (λ h. missing held.now.entries hashes.now ≡ Some h)) }
{
    for hash in hashes {
        let Some(place) = place_of(held, hash, guess) else {
            return Err(ClockFault::UnknownHead(*hash));
        };
        match pending.insert(place) {
            Ok(_) => {}
            Err(_) => return Err(ClockFault::NoMemory),
        }
    }
    Ok(())
}

// A table of no changes.
fn blank(alloc: Global, authors: usize) -> Result<Vec<Reach>, AllocError>
    ensures { IfOk result (λ table. table.items ≡ replicate authors unreached) }
{
    let mut table = Vec::with_capacity(alloc, authors)?;
    for _ in 0..authors {
        table.push(Reach { seq: 0, end: 0 })?;
    }
    Ok(table)
}
