//! For tests: changes of a history as a valid set, listed in any order. That it is valid is found at run time, as each of
//! them joins those before it.
ghost use Rattle.std.specs.Prelude.{◌≡◌, ◌++◌, ◌∷◌, [], List, IfOk, IsTrue, OnOk, vec_items};
ghost use Rattle.std.specs.List.{list_all};
ghost use Rattle.am_types.specs.Fine.{Fine};
ghost use Rattle.am_types.specs.Members.{Member, holds};
ghost use Rattle.am_types.specs.ValidSets.{IsValidSet, Joins, Valid};
ghost use Rattle.am_delivery.specs.Waiting.{members_of};
ghost use Rattle.am_fits.specs.Indexes.{AreOf};
ghost use Rattle.am_graph.specs.Graphs.{ForSet};
ghost use Rattle.am_rebuild.specs.Gathered.{IsOfSet, MayGrow};

use crate::samples::{Sample, change_at};
use am_change::{hash_of, is_fine};
use am_delivery::joined_is_valid;
use am_fits::{OpIndex, fits};
use am_graph::Graph;
use am_types::{Change, Hash, Verdict, hash_known};
use std::alloc::{AllocError, Global};
use std::marker::Model;
use std::test::Fail;

// No history has more changes.
const MOST: usize = 8;

// Changes that joined, with their graph and index. Contracts see the members.
#[derive(Drop)]
struct Joined {
    entries: Vec<(Hash, Change)>,
    graph: Graph,
    index: OpIndex,
}

impl Model for Joined {
    ghost use Rattle.std.specs.Prelude.{List};
    ghost use Rattle.am_types.specs.Members.{Member};
    ghost use Rattle.am_types.specs.ValidSets.{Valid};
    ghost use Rattle.am_delivery.specs.Waiting.{members_of};
    ghost use Rattle.am_fits.specs.Indexes.{AreOf};

    ghost Value = { List Member };

    ghost view = { λ j. members_of j.entries.items };

    ghost invariant = { λ j. AreOf (members_of j.entries.items) j.graph j.index × Valid (members_of j.entries.items) };
}

fn none(alloc: Global) -> Joined {
    Joined {
        entries: Vec::new(alloc),
        graph: Graph::new(alloc),
        index: OpIndex::new(alloc),
    }
}

// Whether all of these are hashes of changes of the graph.
fn holds_all(graph: &Graph, hashes: &[Hash]) -> bool
    ensures { ForSet graph.now (λ C. result ≡ list_all (holds C) hashes.now) }
{
    for hash in hashes {
        if !graph.holds(hash) {
            return false;
        }
    }
    true
}

// Whether a fine change with this hash joins.
fn may_join(
    alloc: Global,
    graph: &Graph,
    index: &OpIndex,
    hash: &Hash,
    change: &Change,
) -> Result<bool, AllocError>
    requires fine { Fine change.now }
    requires set { IsOfSet graph.now index.now }
    ensures { IfOk result (λ told. (D : List Member) → AreOf D graph.now index.now → Valid D → IsTrue told → Joins D (record { hash = hash.now; change = change.now })) }
{
    hash_known(hash);
    if graph.holds(hash) || !holds_all(graph, change.deps.as_slice()) {
        return Ok(false);
    }
    let verdict = fits(alloc, graph, index, change)?;
    Ok(matches!(verdict, Verdict::Fits))
}

// Takes a change that joins into both.
fn enter(
    alloc: Global,
    graph: &mut Graph,
    index: &mut OpIndex,
    hash: Hash,
    change: &Change,
) -> Result<(), Fail>
    requires { MayGrow graph.old index.old (record { hash = hash; change = change.now }) }
    ensures { OnOk result ((C : List Member) → AreOf C graph.old index.old → AreOf (C ++ record { hash = hash; change = change.now } ∷ []) graph.new index.new) }
{
    index.admit(alloc, change)?;
    let count = change.ops.len() as u64;
    graph.add(
        alloc,
        hash,
        &change.actor,
        change.seq,
        change.start,
        count,
        change.deps.as_slice(),
    )?;
    Ok(())
}

// Takes a change in.
fn take_in(
    alloc: Global,
    entries: &mut Vec<(Hash, Change)>,
    graph: &mut Graph,
    index: &mut OpIndex,
    change: Change,
) -> Result<(), Fail>
    requires of_set { AreOf (members_of entries.old.items) graph.old index.old }
    requires valid { Valid (members_of entries.old.items) }
    ensures of_set { OnOk result (AreOf (members_of entries.new.items) graph.new index.new) }
    ensures valid { OnOk result (Valid (members_of entries.new.items)) }
{
    joined_is_valid();
    if !is_fine(&change) {
        return Err(Fail::from("a change isn't fine"));
    }
    let hash = hash_of(alloc, &change)?;
    if !may_join(alloc, graph, index, &hash, &change)? {
        return Err(Fail::from("a change doesn't join"));
    }
    enter(alloc, graph, index, hash, &change)?;
    entries.push((hash, change))?;
    Ok(())
}

// The set with one more change. It depends on the first one, unless it starts where that does.
fn join(alloc: Global, set: Joined, mut change: Change) -> Result<Joined, Fail> {
    let Joined {
        mut entries,
        mut graph,
        mut index,
    } = set;
    if change.start > 1 && entries.len() > 0 {
        change.deps.push(entries[0].0)?;
    }
    take_in(alloc, &mut entries, &mut graph, &mut index, change)?;
    Ok(Joined {
        entries,
        graph,
        index,
    })
}

// The changes that have these numbers, taken in by ascending number, and these numbers in this order.
fn join_all(
    alloc: Global,
    samples: &[Sample],
    numbers: &[usize],
) -> Result<(Joined, Vec<usize>), Fail> {
    let mut set = none(alloc);
    let mut taken = Vec::new(alloc);
    for number in 0..MOST {
        if numbers.contains(&number) {
            let Some(change) = change_at(alloc, samples, number)? else {
                return Err(Fail::from("no such change"));
            };
            set = join(alloc, set, change)?;
            taken.push(number)?;
        }
    }
    Ok((set, taken))
}

// The changes that joined.
fn entries_of(set: Joined) -> Vec<(Hash, Change)>
    ensures { Valid (members_of (vec_items result)) }
{
    set.entries
}

// Exchanges two changes, if they are there.
fn exchange(entries: &mut Vec<(Hash, Change)>, i: usize, j: usize)
    requires { Valid (members_of entries.old.items) }
    ensures { Valid (members_of entries.new.items) }
{
    if i < entries.len() && j < entries.len() {
        entries.swap(i, j);
    }
}

// Lists the changes, of which those with the numbers in `taken` stand there, in the order of `numbers`.
fn put_in_order(
    entries: &mut Vec<(Hash, Change)>,
    taken: &mut Vec<usize>,
    numbers: &[usize],
) -> Result<(), Fail>
    requires { Valid (members_of entries.old.items) }
    ensures { OnOk result (Valid (members_of entries.new.items)) }
{
    for place in 0..numbers.len() {
        let number = numbers[place];
        let Some(at) = taken.iter().position(|other| *other == number) else {
            return Err(Fail::from("a change is missing"));
        };
        exchange(entries, place, at);
        if place < taken.len() && at < taken.len() {
            taken.swap(place, at);
        }
    }
    if taken.as_slice() != numbers {
        return Err(Fail::from("the changes stand in another order"));
    }
    Ok(())
}

// The changes without their hashes.
#[tactic(auto, using(crate::proofs::ValidSets::is_valid_set))]
fn without_hashes(alloc: Global, entries: Vec<(Hash, Change)>) -> Result<Vec<Change>, AllocError>
    requires { Valid (members_of (vec_items entries)) }
    ensures { IfOk result (λ changes. IsValidSet (vec_items changes)) }
{
    let mut changes = Vec::new(alloc);
    for (_, change) in entries {
        changes.push(change)?;
    }
    Ok(changes)
}

/// The changes that have these numbers among the samples, in this order. Fails where they are no valid set.
pub fn valid_set(alloc: Global, samples: &[Sample], numbers: &[usize]) -> Result<Vec<Change>, Fail>
    ensures { IfOk result (λ changes. IsValidSet (vec_items changes)) }
{
    let (set, mut taken) = join_all(alloc, samples, numbers)?;
    let mut entries = entries_of(set);
    put_in_order(&mut entries, &mut taken, numbers)?;
    Ok(without_hashes(alloc, entries)?)
}
