//! Whether a change fits a valid set.
ghost use Rattle.std.specs.Prelude.{◌≡◌, ◌-◌, ◌&&◌, nat_lt, nat_le, IfOk, false};
ghost use Rattle.std.specs.List.{find};
ghost use Rattle.std.specs.Option.{option_map_or};
ghost use Rattle.am_types.specs.Members.{member};
ghost use Rattle.am_types.specs.Operations.{max};
ghost use Rattle.am_types.specs.Verdicts.{verdict};
ghost use Rattle.am_graph.specs.Clocks.{reach_of};
ghost use Rattle.am_graph.specs.Graphs.{ForSet};
ghost use Rattle.am_fits.specs.Indexes.{ForValid, MayJoin};

use crate::ancestors::Ancestors;
use crate::index::OpIndex;
use crate::known::first_bad;
use am_graph::{ClockFault, Graph, Reached};
use am_types::{Hash, ReadChange, Verdict};
use std::alloc::{AllocError, Global};

/// Whether the change fits the set of this graph and this index, or the first reason why it doesn't.
pub fn fits<C: ReadChange>(
    alloc: Global,
    graph: &Graph,
    index: &OpIndex,
    change: &C,
) -> Result<Verdict, AllocError>
    requires { MayJoin graph.now index.now (C.change change.now) }
    ensures { IfOk result (λ found. ForValid graph.now index.now (λ D. found ≡ verdict D (C.change change.now))) }
{
    if let Some(hash) = graph.find(change.actor().as_slice(), change.seq()) {
        return Ok(Verdict::SeqClash(hash));
    }
    let reached = match graph.reached(alloc, change.deps()) {
        Ok(reached) => reached,
        Err(ClockFault::NoMemory) => return Err(AllocError),
        Err(ClockFault::UnknownHead(_)) => unreachable!(),
    };
    if has_gap(&reached, change) {
        return Ok(Verdict::SeqGap);
    }
    if let Some(dep) = low_dependency(graph, change) {
        return Ok(Verdict::StartLow(dep));
    }
    let mut ancestors = Ancestors::new(reached, index, change.actor().as_slice());
    if let Some(place) = first_bad(&mut ancestors, change) {
        return Ok(Verdict::BadReference(place));
    }
    if let Some(limit) = index.totals().with(change).limit() {
        return Ok(Verdict::Full(limit));
    }
    Ok(Verdict::Fits)
}

// Whether the actor's change before this one is not among the ancestors.
fn has_gap<C: ReadChange>(reached: &Reached<'_>, change: &C) -> bool
    ensures { result ≡ (nat_lt 1 (C.change change.now).seq && nat_lt (reach_of reached.now (C.change change.now).actor).seq ((C.change change.now).seq - 1)) }
{
    change.seq() > 1 && reached.last_seq(change.actor().as_slice()) < change.seq() - 1
}

// The first dependency that ends at the start or above.
fn low_dependency<C: ReadChange>(graph: &Graph, change: &C) -> Option<Hash>
    ensures { ForSet graph.now (λ D. result ≡ find (λ h. option_map_or (λ m. nat_le (C.change change.now).start (max m.change)) (member D h) false) (C.change change.now).deps) }
{
    for dep in change.deps() {
        if is_low(graph, dep, change.start()) {
            return Some(*dep);
        }
    }
    None
}

// Whether the change with the hash ends at the start or above.
fn is_low(graph: &Graph, hash: &Hash, start: u64) -> bool
    ensures { ForSet graph.now (λ C. result ≡ option_map_or (λ m. nat_le start (max m.change)) (member C hash.now) false) }
{
    match graph.max_of(hash) {
        Some(max) => start <= max,
        None => false,
    }
}
