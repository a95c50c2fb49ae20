//! The actions of operations, by their numbers. (Automerge Binary Document Format, "actions".)

/// It makes a map.
pub const MAKE_MAP: u8 = 0;

/// It sets a value.
pub const SET: u8 = 1;

/// It makes a list.
pub const MAKE_LIST: u8 = 2;

/// It deletes what it names.
pub const DELETE: u8 = 3;

/// It makes a text.
pub const MAKE_TEXT: u8 = 4;

/// It adds to the counters that it names.
pub const INCREMENT: u8 = 5;

/// It makes a table.
pub const MAKE_TABLE: u8 = 6;

/// It begins or ends a mark.
pub const MARK: u8 = 7;

/// No action has a greater number.
pub const GREATEST: u8 = MARK;
