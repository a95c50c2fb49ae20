//! The changes of a document with what is built of them on the way.
ghost use Rattle.std.specs.Prelude.{◌≡◌, All, IfOk, vec_items};
ghost use Rattle.am_types.specs.Deliver.{MayCome};
ghost use Rattle.am_types.specs.Fine.{Fine};
ghost use Rattle.am_types.specs.ValidSets.{Valid};
ghost use Rattle.am_fits.specs.Indexes.{AreOf};
ghost use Rattle.am_delivery.specs.Waiting.{members_of};

use crate::gathered::Gathered;
use crate::lent_change::LentChange;
use crate::owned::owned;
use am_fits::OpIndex;
use am_graph::Graph;
use am_types::{Change, Hash, SharedActors};
use std::alloc::{AllocError, Global};

/// The changes of a document, with their graph and their index.
#[derive(Drop)]
pub struct Rebuilt {
    /// Each behind its own hash, in the order of the change rows.
    pub entries: Vec<(Hash, Change)>,
    /// The graph of these changes, in this order.
    pub graph: Graph,
    /// The index of their operations, in this order.
    pub index: OpIndex,
}

// The change of an entry, owned, behind its hash.
fn entry_owned(
    alloc: Global,
    known: &mut SharedActors,
    hash: Hash,
    change: LentChange<'_>,
) -> Result<(Hash, Change), AllocError>
    requires { Fine change }
    ensures { IfOk result (λ e. e ≡ (hash, change.entry)) }
{
    let owned = owned(alloc, known, &change)?;
    Ok((hash, owned))
}

// The changes, owned, each behind its hash. One after another is let go where it was lent.
fn entries_owned(
    alloc: Global,
    lent: Vec<(Hash, LentChange<'_>)>,
) -> Result<Vec<(Hash, Change)>, AllocError>
    requires { All MayCome (members_of lent.items) }
    ensures { IfOk result (λ entries. entries.items ≡ lent.entry.items) }
{
    let mut known = SharedActors::new(alloc);
    let mut entries = Vec::with_capacity(alloc, lent.len())?;
    for (hash, change) in lent {
        let entry = entry_owned(alloc, &mut known, hash, change)?;
        entries.push(entry)?;
    }
    Ok(entries)
}

impl<'a> Gathered<'a> {
    /// The changes, owned, each behind its hash, in the order in which they joined, with their graph and index.
    pub(crate) fn into_rebuilt(self, alloc: Global) -> Result<Rebuilt, AllocError>
        ensures entries { IfOk result (λ r. members_of (vec_items r.entries) ≡ self.entry) }
        ensures of_set { IfOk result (λ r. AreOf (members_of (vec_items r.entries)) r.graph r.index) }
        ensures valid { IfOk result (λ r. Valid (members_of (vec_items r.entries))) }
    {
        let entries = entries_owned(alloc, self.entries)?;
        Ok(Rebuilt {
            entries,
            graph: self.graph,
            index: self.index,
        })
    }
}
