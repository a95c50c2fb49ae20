//! Printing what is visible by a replay of the decoded changes.
ghost use Rattle.std.specs.Prelude.{◌≡◌, IfOk};
ghost use Rattle.am_types.specs.Operations.{all_operations};
ghost use Rattle.am_types.specs.Replay.{replay};
ghost use Rattle.am_types.specs.ValidSets.{IsValidSet};
ghost use Rattle.am_types.specs.EntryOrder.{IsInOrder};
ghost use Rattle.am_json.specs.Shown.{json_data};
ghost use Rattle.am_json.specs.declared.Form.TheVariants.{Winners};
ghost use Rattle.am_session.specs.Reading.{printed, reading_at, reading};

use crate::reading::reply_of;
use crate::replies::unknown;
use am_delivery::part_is_valid;
use am_graph::ClockFault;
use am_json::{Form, LentJsonMaker, order_front};
use am_laws::listing_is_free;
use am_replay::{entries_are_in_order, replay};
use am_store::Store;
use am_types::{Bytes, Change, Entry, Hash};
use std::alloc::{AllocError, Global};

// The reply with the text of these entries.
fn print(alloc: Global, entries: &[Entry]) -> Result<Bytes, AllocError>
    requires { IsInOrder entries.now }
    ensures { IfOk result (λ reply. reply ≡ printed (json_data Winners entries.now)) }
{
    order_front();
    let mut maker = LentJsonMaker::new(alloc, Form::Winners);
    for entry in entries {
        maker.push(entry.lend())?;
    }
    reply_of(alloc, maker)
}

// What is visible after these changes.
fn replayed(alloc: Global, changes: &[Change]) -> Result<Bytes, AllocError>
    requires { IsValidSet changes.now }
    ensures { IfOk result (λ reply. reply ≡ printed (json_data Winners (replay (all_operations changes.now)))) }
{
    entries_are_in_order();
    let document = replay(alloc, changes)?;
    print(alloc, document.entries.as_slice())
}

// What is visible at these hashes.
fn audit_at(alloc: Global, hashes: &[Hash], store: &Store) -> Result<Bytes, AllocError>
    ensures { IfOk result (λ reply. reply ≡ reading_at Winners hashes.now store.now.closed) }
{
    listing_is_free();
    part_is_valid();
    let _graph = store.graph();
    match store.ancestors(alloc, hashes) {
        Ok(changes) => replayed(alloc, changes.as_slice()),
        Err(ClockFault::UnknownHead(hash)) => unknown(alloc, &hash),
        Err(ClockFault::NoMemory) => Err(AllocError),
    }
}

/// What show prints at the hashes that are named, or at the heads of the closed set where none is, by a replay.
pub fn audit(alloc: Global, named: &[Hash], store: &Store) -> Result<Bytes, AllocError>
    ensures { IfOk result (λ reply. reply ≡ reading Winners named.now store.now.closed) }
{
    if named.is_empty() {
        let heads = store.graph().heads(alloc)?;
        return audit_at(alloc, heads.as_slice(), store);
    }
    audit_at(alloc, named, store)
}
