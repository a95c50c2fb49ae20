//! The specifications of the columns of change rows. (Automerge Binary Document Format, "Document Chunks".)

/// The author.
pub const AUTHOR: u64 = 1;

/// The number of the change among those of its author.
pub const SEQ: u64 = 3;

/// The last counter of the change.
pub const MAX: u64 = 19;

/// The time.
pub const TIME: u64 = 35;

/// The message.
pub const MESSAGE: u64 = 53;

/// How many dependencies the change has.
pub const DEP_COUNT: u64 = 64;

/// The places of the dependencies among the change rows.
pub const DEP_INDEX: u64 = 67;

/// The kind and the length of the extra bytes.
pub const EXTRA_METADATA: u64 = 86;

/// The extra bytes.
pub const EXTRA_RAW: u64 = 87;
