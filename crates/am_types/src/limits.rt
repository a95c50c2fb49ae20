//! The limits that several crates hold to.

/// The most bytes of an actor.
pub const LONGEST_ACTOR: usize = 1024;

/// The greatest counter of an operation, and the greatest number that a change has among those of its author.
pub const GREATEST_COUNTER: u64 = (1 << 53) - 1;

/// The most operations of a change and of a set, and the most predecessors and dependencies of either; also the most rows of a
/// document, successors of these and dependencies of its change rows.
pub const MOST_OPERATIONS: u64 = 1 << 22;

/// The most changes of a set, and the most change rows of a document.
pub const MOST_CHANGES: u64 = 1 << 20;

/// The greatest time of a change. The least is its negative.
pub const GREATEST_TIME: i64 = (1 << 62) - 1;

/// The most bytes of a value, and of what stands behind the columns of a change.
pub const MOST_BYTES: usize = (1 << 60) - 1;
