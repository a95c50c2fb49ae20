//! The order of the change rows of a larger set.
ghost use Rattle.std.specs.Prelude.{◌≡◌, ◌++◌, List, IfOk, Contains, map, option_map};
ghost use Rattle.am_types.specs.Canonical.{order};
ghost use Rattle.am_types.specs.Members.{Member, hashes};
ghost use Rattle.am_merge.specs.ChangeRows.{turn, turns, old_places};
ghost use Rattle.am_merge.specs.Grown.{HasGrown};

use am_graph::Graph;
use am_types::{Change, Hash};
use std::alloc::{AllocError, Global};

// The turn of the change with this hash. The graph has `count` changes, and behind them those that are added.
fn turn_of<'a>(after: &Graph, count: usize, added: &[&'a Change], hash: &Hash) -> Option<&'a Change>
    ensures { (C E : List Member) → HasGrown after.now count (map (λ c. c.now) added.now) C E → (m : Member) → Contains (C ++ E) m → m.hash ≡ hash.now
        → option_map (λ c. c.now) result ≡ turn C m }
{
    let place = after.place(hash)?;
    if place < count {
        return None;
    }
    added.get(place - count).copied()
}

/// The turns of the changes with these hashes, those of the graph in canonical order: None for each of the first `count`
/// changes of the graph, and the change for those that are added behind them.
pub fn turns_of<'a>(
    alloc: Global,
    after: &Graph,
    count: usize,
    added: &[&'a Change],
    ordered: &[Hash],
) -> Result<Vec<Option<&'a Change>>, AllocError>
    ensures { IfOk result (λ found. (C E : List Member) → HasGrown after.now count (map (λ c. c.now) added.now) C E → ordered.now ≡ hashes (order (C ++ E))
        → map (option_map (λ c. c.now)) found.items ≡ turns C (order (C ++ E))) }
{
    let mut found = Vec::new(alloc);
    for hash in ordered {
        found.push(turn_of(after, count, added, hash))?;
    }
    Ok(found)
}

/// The places of the turns that are None.
pub fn places_of_old(alloc: Global, turns: &[Option<&Change>]) -> Result<Vec<u64>, AllocError>
    ensures { IfOk result (λ places. places.items ≡ old_places 0 (map (option_map (λ c. c.now)) turns.now)) }
{
    let mut places = Vec::new(alloc);
    for i in 0..turns.len() {
        if turns[i].is_none() {
            places.push(i as u64)?;
        }
    }
    Ok(places)
}
