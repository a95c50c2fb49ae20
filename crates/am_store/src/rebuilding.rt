//! The changes of a closed set, rebuilt from the contents of its document.
ghost use Rattle.std.specs.Prelude.{ℕ, ◌≡◌, ◌++◌, ◌∷◌, [], List, IfOk, OnOk, None, Some, true, length, map, set, slice_get, vec_items};
ghost use Rattle.am_types.specs.Canonical.{order};
ghost use Rattle.am_types.specs.Members.{Member, holds, member};
ghost use Rattle.am_graph.specs.Graphs.{nodes};
ghost use Rattle.am_delivery.specs.Waiting.{members_of};
ghost use Rattle.am_rebuild.specs.declared.fault.RebuildFault.TheVariants.{NoMemory};
ghost use Rattle.am_store.specs.Contents.{IsContents, AreContents, ForContents};
ghost use Rattle.am_store.specs.Listed.{IsListed, AreRoomFor, placed, standing};

use crate::contents::doc_of;
use crate::file_changes::entries_of;
use am_graph::Graph;
use am_histories::document_is_history;
use am_laws::{listing_is_free, valid_sets_keep_rules};
use am_rebuild::{RebuildFault, rebuild_whole};
use am_types::{Change, Hash};
use std::alloc::{AllocError, Global};

// Want of memory, which alone keeps the changes of a set from being rebuilt.
fn no_memory(fault: RebuildFault) -> AllocError
    requires { fault ≡ NoMemory }
{
    match fault {
        RebuildFault::NoHistory => unreachable!(),
        RebuildFault::HeadsMismatch(_) => unreachable!(),
        RebuildFault::NoMemory => AllocError,
    }
}

/// The changes of the set with these contents, each behind its hash, in canonical order.
pub fn rebuilt(alloc: Global, contents: &[u8]) -> Result<Vec<(Hash, Change)>, AllocError>
    requires { AreContents contents.now }
    ensures { IfOk result (λ entries. ForContents contents.now (λ C. members_of (vec_items entries) ≡ order C)) }
{
    document_is_history();
    listing_is_free();
    match rebuild_whole(alloc, doc_of(contents)) {
        Ok(document) => Ok(entries_of(document)),
        Err(fault) => Err(no_memory(fault)),
    }
}

// As many empty places as there are entries.
fn places_for(
    alloc: Global,
    entries: &[(Hash, Change)],
) -> Result<Vec<Option<(Hash, Change)>>, AllocError>
    ensures { IfOk result (λ places. places.items ≡ map (λ e. None) entries.now) }
{
    let mut places = Vec::new(alloc);
    for _entry in entries {
        places.push(None)?;
    }
    Ok(places)
}

// Puts a change at its place in the graph.
fn put(graph: &Graph, places: &mut Vec<Option<(Hash, Change)>>, hash: Hash, change: Change)
    requires { (C : List Member) × (graph.now ≡ nodes C) × (length places.old.items ≡ length C) × (holds C hash ≡ true) }
    ensures { (C : List Member) → graph.now ≡ nodes C → (p : ℕ) × (member C hash ≡ slice_get C p) × (places.new.items ≡ set places.old.items p (Some (hash, change))) }
{
    match graph.place(&hash) {
        Some(place) => places[place] = Some((hash, change)),
        None => unreachable!(),
    }
}

// Puts each entry at its place in the graph.
fn put_all(graph: &Graph, places: &mut Vec<Option<(Hash, Change)>>, entries: Vec<(Hash, Change)>)
    requires { AreRoomFor graph.now (vec_items entries) places.old.items }
    ensures { (C : List Member) → IsListed C graph.now (vec_items entries) → places.new.items ≡ map (placed (vec_items entries)) C }
{
    for (hash, change) in entries {
        put(graph, places, hash, change);
    }
}

// Appends what stands in a place.
fn take_place(
    entries: &mut Vec<(Hash, Change)>,
    place: Option<(Hash, Change)>,
) -> Result<(), AllocError>
    ensures { OnOk result (entries.new.items ≡ entries.old.items ++ standing (place ∷ [])) }
{
    match place {
        Some(entry) => {
            entries.push(entry)?;
            Ok(())
        }
        None => Ok(()),
    }
}

// What stands in the places that are taken.
fn taken(
    alloc: Global,
    places: Vec<Option<(Hash, Change)>>,
) -> Result<Vec<(Hash, Change)>, AllocError>
    ensures { IfOk result (λ entries. entries.items ≡ standing (vec_items places)) }
{
    let mut entries = Vec::new(alloc);
    for place in places {
        take_place(&mut entries, place)?;
    }
    Ok(entries)
}

/// The changes of the set with these contents in the order in which the set is listed, which is that of its graph.
pub fn listed(
    alloc: Global,
    graph: &Graph,
    contents: &[u8],
) -> Result<Vec<(Hash, Change)>, AllocError>
    requires { (C : List Member) × IsContents C contents.now × (graph.now ≡ nodes C) }
    ensures { IfOk result (λ entries. ForContents contents.now (λ C. graph.now ≡ nodes C → members_of (vec_items entries) ≡ C)) }
{
    valid_sets_keep_rules();
    let entries = rebuilt(alloc, contents)?;
    let mut places = places_for(alloc, entries.as_slice())?;
    put_all(graph, &mut places, entries);
    taken(alloc, places)
}
