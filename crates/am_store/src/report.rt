//! What a store tells of deliveries and of itself.
ghost use Rattle.std.specs.Prelude.{◌≡◌};
ghost use Rattle.am_store.specs.Kept.{counts_with};

use am_fits::Totals;
use am_types::{List, Rejected};

/// What a delivery did.
#[derive(Debug, PartialEq, Eq, Drop)]
pub struct Report {
    /// How many changes joined the closed set.
    pub added: u64,
    /// How many changes wait afterwards.
    pub waiting: u64,
    /// What was rejected, in the order in which it was.
    pub rejected: List<Rejected>,
}

/// How much a store holds.
#[derive(Clone, Copy, Debug, PartialEq, Eq)]
pub struct Counts {
    /// The changes of the closed set.
    pub changes: u64,
    /// Their operations in all.
    pub operations: u64,
    /// The predecessors of these in all.
    pub preds: u64,
    /// The dependencies of the changes in all.
    pub links: u64,
    /// The waiting changes.
    pub waiting: u64,
}

/// The totals of a closed set, beside the number of the waiting changes.
pub(crate) fn counted(totals: Totals, waiting: u64) -> Counts
    ensures { result ≡ counts_with totals waiting }
{
    Counts {
        changes: totals.changes,
        operations: totals.operations,
        preds: totals.preds,
        links: totals.links,
        waiting,
    }
}
