//! What a store tells of each change.
ghost use Rattle.std.specs.Prelude.{◌≡◌, IfOk, map};
ghost use Rattle.am_delivery.specs.Waiting.{member_of};
ghost use Rattle.am_store.specs.History.{line_of};

use am_types::{ActorId, Change, Hash, List, Text, Twin};
use std::alloc::{AllocError, Global};

/// A change as the history of a set tells it: what it is called by, and neither its operations nor its dependencies.
#[derive(Debug, PartialEq, Eq, Drop)]
pub struct HistoryLine {
    /// The hash of the change.
    pub hash: Hash,
    /// Its author.
    pub actor: ActorId,
    /// The number of the change among those of its author, from 1.
    pub seq: u64,
    /// The counter of its first operation.
    pub start: u64,
    /// How many operations it has.
    pub count: u64,
    /// When it was made, in milliseconds since 1970.
    pub time: i64,
    /// What its author says of it.
    pub message: Text,
}

// The line of a change.
fn line_of(alloc: Global, hash: &Hash, change: &Change) -> Result<HistoryLine, AllocError>
    ensures { IfOk result (λ line. line ≡ line_of (record { hash = hash.now; change = change.now })) }
{
    let actor = change.actor.copy(alloc)?;
    let message = change.message.copy(alloc)?;
    Ok(HistoryLine {
        hash: *hash,
        actor,
        seq: change.seq,
        start: change.start,
        count: change.ops.len() as u64,
        time: change.time,
        message,
    })
}

/// The lines of these changes.
pub fn lines_of(alloc: Global, entries: &[(Hash, Change)]) -> Result<List<HistoryLine>, AllocError>
    ensures { IfOk result (λ lines. lines ≡ map (λ e. line_of (member_of e)) entries.now) }
{
    let mut lines = List::new(alloc);
    for entry in entries {
        let line = line_of(alloc, &entry.0, &entry.1)?;
        lines.push(line)?;
    }
    Ok(lines)
}
