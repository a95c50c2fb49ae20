//! Copies of changes that are picked by their hashes.
ghost use Rattle.std.specs.Prelude.{◌≡◌, IfOk, Some, true, filter, map, option_map, vec_items};
ghost use Rattle.std.specs.BTreeSet.{contains};
ghost use Rattle.am_types.specs.declared.Hash.{Hash as AHash};
ghost use Rattle.am_types.specs.Order.{hash_cmp, among};
ghost use Rattle.am_types.specs.Members.{Member, changes, member, holds};
ghost use Rattle.am_graph.specs.Graphs.{nodes};
ghost use Rattle.am_delivery.specs.Waiting.{members_of};
ghost use Rattle.am_rebuild.specs.Documents.{changes_of};

use am_graph::Graph;
use am_types::{Change, Hash, List, Twin};
use std::alloc::{AllocError, Global};
use std::collections::BTreeSet;

/// The change with this hash.
pub fn change_at<'a>(graph: &Graph, entries: &'a [(Hash, Change)], hash: &Hash) -> &'a Change
    requires of_set { graph.now ≡ nodes (members_of entries.now) }
    requires held { holds (members_of entries.now) hash.now ≡ true }
    ensures { option_map (λ m. m.change) (member (members_of entries.now) hash.now) ≡ Some result.now }
{
    match graph.place(hash) {
        Some(place) => &entries[place].1,
        None => unreachable!(),
    }
}

/// The changes without their hashes.
pub fn without_hashes(
    alloc: Global,
    entries: Vec<(Hash, Change)>,
) -> Result<List<Change>, AllocError>
    ensures { IfOk result (λ list. list ≡ changes_of (vec_items entries)) }
{
    let mut list = List::new(alloc);
    for (_, change) in entries {
        list.push(change)?;
    }
    Ok(list)
}

/// The changes, lent.
pub fn all_lent<'a>(
    alloc: Global,
    entries: &'a [(Hash, Change)],
) -> Result<Vec<&'a Change>, AllocError>
    ensures { IfOk result (λ list. map (λ c. c.now) list.items ≡ changes (members_of entries.now)) }
{
    let mut list = Vec::new(alloc);
    for entry in entries {
        list.push(&entry.1)?;
    }
    Ok(list)
}

// These hashes, for look-ups.
fn set_of(alloc: Global, hashes: &[Hash]) -> Result<BTreeSet<Hash>, AllocError>
    ensures { IfOk result (λ set. (h : AHash) → contains hash_cmp set h ≡ among hash_cmp hashes.now h) }
{
    let mut set = BTreeSet::new(alloc);
    for hash in hashes {
        set.insert(*hash)?;
    }
    Ok(set)
}

/// The changes that have one of these hashes, in the order of the entries.
pub fn changes_among(
    alloc: Global,
    entries: &[(Hash, Change)],
    hashes: &[Hash],
) -> Result<List<Change>, AllocError>
    ensures { IfOk result (λ list. list ≡ changes (filter (λ m. among hash_cmp hashes.now m.hash) (members_of entries.now))) }
{
    let wanted = set_of(alloc, hashes)?;
    let mut list = List::new(alloc);
    for entry in entries {
        if wanted.contains(&entry.0) {
            let change = entry.1.copy(alloc)?;
            list.push(change)?;
        }
    }
    Ok(list)
}
