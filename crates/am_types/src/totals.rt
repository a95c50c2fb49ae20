//! How many changes a set has, and how many operations, predecessors and dependencies they have in all.
ghost use Rattle.std.specs.Prelude.{◌≡◌, ◌≤◌, map};
ghost use Rattle.am_types.specs.Fine.{pred_count};
ghost use Rattle.am_types.specs.Limits.{most_operations};
ghost use Rattle.am_types.specs.Totals.{totals_with, limit_of, AreWithinLimits, IsWithinLimits};

use crate::limits::{MOST_CHANGES, MOST_OPERATIONS};
use crate::read_change::ReadChange;
use crate::read_op::ReadOp;
use crate::verdict::Limit;

/// What the changes of a set have in all.
#[derive(Clone, Copy, Debug, PartialEq, Eq)]
pub struct Totals {
    /// How many changes there are.
    pub changes: u64,
    /// How many operations they have.
    pub operations: u64,
    /// How many predecessors the operations have.
    pub preds: u64,
    /// How many dependencies the changes have.
    pub links: u64,
}

impl Totals {
    /// Those of the set and of one more change.
    pub fn with<C: ReadChange>(&self, change: &C) -> Totals
        requires set { AreWithinLimits self.now }
        requires change { IsWithinLimits (C.change change.now) }
        ensures { result ≡ totals_with self.now (C.change change.now) }
    {
        Totals {
            changes: self.changes + 1,
            operations: self.operations + change.ops().len() as u64,
            preds: self.preds + pred_count(change.ops()),
            links: self.links + change.deps().len() as u64,
        }
    }

    /// The first limit that is passed.
    pub fn limit(&self) -> Option<Limit>
        ensures { result ≡ limit_of self.now }
    {
        if self.changes > MOST_CHANGES {
            Some(Limit::Changes)
        } else if self.operations > MOST_OPERATIONS {
            Some(Limit::Operations)
        } else if self.preds > MOST_OPERATIONS {
            Some(Limit::Preds)
        } else if self.links > MOST_OPERATIONS {
            Some(Limit::Links)
        } else {
            None
        }
    }
}

// How many predecessors the operations have in all.
fn pred_count<O: ReadOp>(ops: &[O]) -> u64
    requires { pred_count (map O.op ops.now) ≤ most_operations }
    ensures { result ≡ pred_count (map O.op ops.now) }
{
    let mut count = 0;
    for op in ops {
        count += op.pred_count() as u64;
    }
    count
}
