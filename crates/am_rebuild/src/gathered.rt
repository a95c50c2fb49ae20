//! Changes that join one after another, each behind its own hash. What only reads a change is generic, so that a proof sees the
//! change that is read and nothing of what lends it.
ghost use Rattle.std.specs.Prelude.{◌≡◌, ◌++◌, ◌∷◌, ◌<◌, ◌↔◌, [], List, IfOk, OnOk, OnErr, IsTrue, map};
ghost use Rattle.std.specs.List.{list_all};
ghost use Rattle.am_types.specs.Fine.{Fine};
ghost use Rattle.am_types.specs.Operations.{max};
ghost use Rattle.am_types.specs.Members.{Member, holds};
ghost use Rattle.am_types.specs.ValidSets.{Valid, Joins};
ghost use Rattle.am_graph.specs.Graphs.{ForSet};
ghost use Rattle.am_fits.specs.Indexes.{AreOf};
ghost use Rattle.am_delivery.specs.Waiting.{members_of};
ghost use Rattle.am_rebuild.specs.Gathered.{IsOfSet, MayGrow};

use crate::lasts::{make_room, raise};
use crate::lent_change::LentChange;
use am_delivery::joined_is_valid;
use am_fits::{OpIndex, fits};
use am_graph::Graph;
use am_types::{Hash, ReadChange, Verdict, hash_known};
use std::alloc::{AllocError, Global};
use std::collections::BTreeMap;
use std::marker::Model;

/// Changes that joined one after another, as their rows lend them, each behind its own hash. Contracts see the members.
#[derive(Drop)]
pub(crate) struct Gathered<'a> {
    pub(crate) entries: Vec<(Hash, LentChange<'a>)>,
    pub(crate) graph: Graph,
    pub(crate) index: OpIndex,
    /// The greatest last counter of each actor's changes.
    pub(crate) lasts: BTreeMap<Vec<u8>, u64>,
}

impl<'a> Model for Gathered<'a> {
    ghost use Rattle.std.specs.Prelude.{List};
    ghost use Rattle.am_types.specs.Members.{Member};
    ghost use Rattle.am_delivery.specs.Waiting.{members_of};
    ghost use Rattle.am_rebuild.specs.Gathered.{AreGathered};

    ghost Value = { List Member };

    ghost view = { λ g. members_of g.entries.items };

    ghost invariant = { λ g. AreGathered g.entries.items g.graph g.index g.lasts.entries };
}

// Whether all of these are hashes of changes of the graph.
fn holds_all(graph: &Graph, hashes: &[Hash]) -> bool
    ensures { ForSet graph.now (λ C. result ≡ list_all (holds C) hashes.now) }
{
    for hash in hashes {
        if !graph.holds(hash) {
            return false;
        }
    }
    true
}

/// Whether a fine change with this hash joins.
pub(crate) fn may_join<C: ReadChange>(
    alloc: Global,
    graph: &Graph,
    index: &OpIndex,
    hash: &Hash,
    change: &C,
) -> Result<bool, AllocError>
    requires fine { Fine (C.change change.now) }
    requires set { IsOfSet graph.now index.now }
    ensures { IfOk result (λ told. (D : List Member) → AreOf D graph.now index.now → Valid D → IsTrue told ↔ Joins D (record { hash = hash.now; change = C.change change.now })) }
{
    hash_known(hash);
    if graph.holds(hash) || !holds_all(graph, change.deps()) {
        return Ok(false);
    }
    let verdict = fits(alloc, graph, index, change)?;
    Ok(matches!(verdict, Verdict::Fits))
}

// Takes a change into both, or into neither.
fn enter<C: ReadChange>(
    alloc: Global,
    graph: &mut Graph,
    index: &mut OpIndex,
    hash: Hash,
    change: &C,
) -> Result<(), AllocError>
    requires { MayGrow graph.old index.old (record { hash = hash; change = C.change change.now }) }
    ensures of_set { OnOk result ((D : List Member) → AreOf D graph.old index.old → AreOf (D ++ record { hash = hash; change = C.change change.now } ∷ []) graph.new index.new) }
    ensures graph { OnErr result (graph.new ≡ graph.old) }
    ensures index { OnErr result (index.new ≡ index.old) }
{
    let totals = index.totals();
    index.admit(alloc, change)?;
    let count = change.ops().len() as u64;
    let added = graph.add(
        alloc,
        hash,
        change.actor(),
        change.seq(),
        change.start(),
        count,
        change.deps(),
    );
    if added.is_err() {
        index.cut(totals);
        return Err(AllocError);
    }
    Ok(())
}

// The counter of the last operation of a change.
fn last_of<C: ReadChange>(change: &C) -> u64
    requires { Fine (C.change change.now) }
    ensures { result ≡ max (C.change change.now) }
{
    change.start() + change.ops().len() as u64 - 1
}

/// Takes a change in, behind those that are there.
pub(crate) fn grow<'a>(
    alloc: Global,
    gathered: &mut Gathered<'a>,
    hash: Hash,
    change: LentChange<'a>,
) -> Result<(), AllocError>
    requires { Joins gathered.old (record { hash = hash; change = change }) }
    ensures ok { OnOk result (gathered.new ≡ gathered.old ++ record { hash = hash; change = change.entry } ∷ []) }
{
    joined_is_valid();
    let last = last_of(&change);
    make_room(alloc, &mut gathered.lasts, change.actor().as_slice())?;
    gathered.entries.reserve(1)?;
    enter(
        alloc,
        &mut gathered.graph,
        &mut gathered.index,
        hash,
        &change,
    )?;
    raise(&mut gathered.lasts, change.actor().as_slice(), last);
    gathered.entries.push((hash, change))?;
    Ok(())
}
