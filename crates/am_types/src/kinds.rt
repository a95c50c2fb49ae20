//! The kinds of values, by their numbers. (Automerge Binary Document Format, "value metadata".)

/// The null.
pub const NULL: u8 = 0;

/// False.
pub const FALSE: u8 = 1;

/// True.
pub const TRUE: u8 = 2;

/// An unsigned number.
pub const UNSIGNED: u8 = 3;

/// A signed number.
pub const SIGNED: u8 = 4;

/// A float.
pub const FLOAT: u8 = 5;

/// A text.
pub const TEXT: u8 = 6;

/// Bytes.
pub const BYTES: u8 = 7;

/// A counter.
pub const COUNTER: u8 = 8;

/// A timestamp.
pub const TIMESTAMP: u8 = 9;

/// The greatest of the kinds that are unknown and carried.
pub const GREATEST: u8 = 15;
