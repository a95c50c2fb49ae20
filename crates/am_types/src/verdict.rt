//! Whether a change can join others, and why it was rejected.
use crate::hash::Hash;

/// A limit of a closed set. (A choice of amstore's profile.)
#[derive(Clone, Copy, Debug, PartialEq, Eq)]
pub enum Limit {
    /// 2^20 changes.
    Changes,
    /// 2^22 operations in all.
    Operations,
    /// 2^22 predecessors in all.
    Preds,
    /// 2^22 dependencies in all.
    Links,
}

/// Whether a change fits a valid set of changes, or the first reason why it doesn't.
#[derive(Clone, Copy, Debug, PartialEq, Eq)]
pub enum Verdict {
    /// No reason against it applies.
    Fits,
    /// The member with this hash has the same actor and seq.
    SeqClash(Hash),
    /// The actor's change before it is not among its ancestors.
    SeqGap,
    /// This dependency, the least such, ends at the change's start or above. A change ends at its start plus the number of
    /// its operations less 1, also where it has none.
    StartLow(Hash),
    /// The operation at this place, from 0, the first such, names what is not there.
    BadReference(u64),
    /// This limit, the first such, would be passed.
    Full(Limit),
}

/// Why a delivered change was rejected.
#[derive(Clone, Copy, Debug, PartialEq, Eq)]
pub enum Why {
    /// Another change with the same hash is held.
    HashClash,
    /// The member with this hash has the same actor and seq.
    SeqClash(Hash),
    /// The actor's change before it is not among its ancestors.
    SeqGap,
    /// This dependency, the least such, ends at the change's start or above.
    StartLow(Hash),
    /// The operation at this place, from 0, the first such, names what is not there.
    BadReference(u64),
    /// This limit, the first such, would be passed.
    Full(Limit),
}

/// A rejected change.
#[derive(Clone, Copy, Debug, PartialEq, Eq)]
pub struct Rejected {
    /// The hash of the change.
    pub hash: Hash,
    /// The first reason.
    pub why: Why,
}
