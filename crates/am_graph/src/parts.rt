//! What the graph keeps beside its changes, and how a change joins.
ghost use Rattle.std.specs.Prelude.{◌≡◌, ◌++◌, ◌∷◌, ◌≤◌, ◌+◌, [], length, false, IfOk, OnOk, OnErr, Some, None};
ghost use Rattle.am_graph.specs.Graphs.{is_held, missing, ForSet};
ghost use Rattle.am_types.specs.Canonical.{depth};
ghost use Rattle.am_types.specs.declared.Change.{Change};
ghost use Rattle.am_types.specs.Limits.{counter_end};
ghost use Rattle.am_graph.specs.Reaches.{number};
ghost use Rattle.am_graph.specs.Whole.{IsWhole, IsMarkOf, Notes, lesser, authors_of, first_in};
ghost use Rattle.std.specs.BTreeMap.{IsUnchanged};

use crate::node::Node;
use crate::numbered_texts::NumberedTexts;
use crate::places::place_of;
use crate::reach::{Reach, raise};
use am_types::Hash;
use indexmap::IndexMap;
use std::alloc::{AllocError, Global};
use std::cmp::Ordering;
use std::collections::BTreeMap;

/// A table is kept where a walk would visit so many changes otherwise, and more where there are many authors.
const FEWEST_CHANGES: u64 = 5;

/// For so many authors, since a table has a line for each of them, a walk may visit one change more.
const AUTHORS_A_CHANGE: u64 = 128;

/// What is kept beside a change.
#[derive(Clone, Drop)]
pub(crate) struct Mark {
    /// The number of its author.
    pub author: usize,
    /// The length of the longest chain of dependencies below it.
    pub depth: u64,
    /// A bound of how many changes a walk from here visits, those with a table among them. It is 1 where a table is kept.
    pub away: u64,
    /// Where its dependencies are looked for first. No contract speaks of it.
    pub guess: usize,
    /// How far each author's changes go among it and its ancestors.
    pub kept: Option<Vec<Reach>>,
}

/// The changes of a graph, and what is kept beside them.
#[derive(Drop)]
pub(crate) struct Parts {
    /// The changes by their hashes, in the order in which they came.
    pub held: IndexMap<Hash, Node>,
    /// What is kept beside each of them.
    pub marks: Vec<Mark>,
    /// The authors, each with its place as its number. There may be more than those of the changes.
    pub authors: NumberedTexts,
    /// The least hash of an author's changes with some seq.
    pub firsts: BTreeMap<(usize, u64), Hash>,
}

impl Parts {
    /// No changes.
    pub fn new(alloc: Global) -> Self
        ensures held { result.held.entries ≡ [] }
        ensures whole { IsWhole result }
    {
        Parts {
            held: IndexMap::new(alloc),
            marks: Vec::new(alloc),
            authors: NumberedTexts::new(alloc),
            firsts: BTreeMap::new(alloc),
        }
    }

    /// The number of an actor, who becomes an author if need be.
    pub fn number(&mut self, alloc: Global, actor: &[u8]) -> Result<usize, AllocError>
        requires { IsWhole self.old }
        ensures whole { IsWhole self.new }
        ensures held { self.new.held ≡ self.old.held }
        ensures number { IfOk result (λ a. number (authors_of self.new) actor.now ≡ Some a) }
    {
        let author = self.authors.number(alloc, actor)?;
        Ok(author)
    }

    /// The mark of a change that is about to join. Its dependencies are looked for at the guess first.
    pub fn mark(
        &self,
        alloc: Global,
        node: &Node,
        author: usize,
        guess: usize,
    ) -> Result<Mark, AllocError>
        requires whole { IsWhole self.now }
        requires deps { missing self.now.held.entries node.now.deps ≡ None }
        requires author { number (authors_of self.now) node.now.actor ≡ Some author }
        requires start { 1 ≤ node.now.start }
        requires end { node.now.start + node.now.count ≤ counter_end }
        ensures { IfOk result (λ mark. IsMarkOf self.now node.now mark) }
    {
        let depth = self.depth_above(node.deps.as_slice(), guess);
        let away = self.away_above(node.deps.as_slice(), guess);
        if away < self.step() {
            return Ok(Mark {
                author,
                depth,
                away,
                guess,
                kept: None,
            });
        }
        let Ok(mut table) = self.table(alloc, node.deps.as_slice(), guess) else {
            return Err(AllocError);
        };
        raise(
            table.as_mut_slice(),
            author,
            Reach {
                seq: node.seq,
                end: node.start + node.count,
            },
        );
        Ok(Mark {
            author,
            depth,
            away: 1,
            guess,
            kept: Some(table),
        })
    }

    // From so many changes of a walk on a table is kept. No contract speaks of it.
    fn step(&self) -> u64 {
        FEWEST_CHANGES + self.authors.len() as u64 / AUTHORS_A_CHANGE
    }

    // The depth of a change with these dependencies.
    fn depth_above(&self, deps: &[Hash], guess: usize) -> u64
        requires whole { IsWhole self.now }
        requires held { missing self.now.held.entries deps.now ≡ None }
        ensures depth { ForSet self.now.held.entries (λ C. (c : Change) → c.deps ≡ deps.now → result ≡ depth C c) }
        ensures shallow { result ≤ length self.now.held.entries }
    {
        let mut depth = 0;
        for dep in deps {
            let place = place_of(&self.held, dep, guess).unwrap();
            depth = depth.max(self.marks[place].depth + 1);
        }
        depth
    }

    // How many changes a walk from one with these dependencies may visit, if no table is kept beside that one.
    fn away_above(&self, deps: &[Hash], guess: usize) -> u64
        requires { IsWhole self.now }
    {
        let mut away: u64 = 1;
        for dep in deps {
            if let Some(place) = place_of(&self.held, dep, guess) {
                away = away.saturating_add(self.marks[place].away);
            }
        }
        away
    }

    /// A change joins at the end.
    pub fn join(&mut self, hash: Hash, node: Node, mark: Mark) -> Result<(), AllocError>
        requires whole { IsWhole self.old }
        requires fresh { is_held self.old.held.entries hash ≡ false }
        requires deps { missing self.old.held.entries node.deps ≡ None }
        requires start { 1 ≤ node.start }
        requires end { node.start + node.count ≤ counter_end }
        requires mark { IsMarkOf self.old node mark }
        ensures whole { IsWhole self.new }
        ensures ok { OnOk result (self.new.held.entries ≡ self.old.held.entries ++ (hash, node) ∷ []) }
        ensures err { OnErr result (self.new.held.entries ≡ self.old.held.entries) }
    {
        self.held.reserve(1)?;
        self.marks.reserve(1)?;
        note(&mut self.firsts, mark.author, node.seq, hash)?;
        self.held.insert(hash, node)?;
        self.marks.push(mark)?;
        Ok(())
    }
}

// Keeps the hash, where it is the least of its author's changes with this seq.
fn note(
    firsts: &mut BTreeMap<(usize, u64), Hash>,
    author: usize,
    seq: u64,
    hash: Hash,
) -> Result<(), AllocError>
    ensures ok { OnOk result (Notes (first_in firsts.old) (first_in firsts.new) author seq hash) }
    ensures err { OnErr result (IsUnchanged firsts.old firsts.new) }
{
    let first = least(firsts.get(&(author, seq)).copied(), hash);
    firsts.insert((author, seq), first)?;
    Ok(())
}

// The lesser of the two hashes.
fn least(first: Option<Hash>, hash: Hash) -> Hash
    ensures { result ≡ lesser first hash }
{
    match first {
        None => hash,
        Some(first) => match first.cmp(&hash) {
            Ordering::Greater => hash,
            _ => first,
        },
    }
}
