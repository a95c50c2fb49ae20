//! The specifications of the columns of operations and of rows. (Automerge Binary Document Format, "Operation Columns".)

/// The actor of the object.
pub const OBJECT_ACTOR: u64 = 1;

/// The counter of the object.
pub const OBJECT_COUNTER: u64 = 2;

/// The actor of a key that is an element.
pub const KEY_ACTOR: u64 = 17;

/// The counter of a key that is an element, or 0 of the front.
pub const KEY_COUNTER: u64 = 19;

/// The string of a key that is a name.
pub const KEY_NAME: u64 = 21;

/// The actor of the row's id. Operations of a change have no such column.
pub const ID_ACTOR: u64 = 33;

/// The counter of the row's id.
pub const ID_COUNTER: u64 = 35;

/// Whether it inserts.
pub const INSERT: u64 = 52;

/// The action.
pub const ACTION: u64 = 66;

/// The kind and the length of the value.
pub const VALUE_METADATA: u64 = 86;

/// The bytes of the value.
pub const VALUE_RAW: u64 = 87;

/// How many predecessors an operation of a change has.
pub const PRED_COUNT: u64 = 112;

/// The actors of the predecessors.
pub const PRED_ACTOR: u64 = 113;

/// The counters of the predecessors.
pub const PRED_COUNTER: u64 = 115;

/// How many successors a row has.
pub const SUCC_COUNT: u64 = 128;

/// The actors of the successors.
pub const SUCC_ACTOR: u64 = 129;

/// The counters of the successors.
pub const SUCC_COUNTER: u64 = 131;

/// Whether a mark expands.
pub const EXPAND: u64 = 148;

/// The name of a mark.
pub const MARK: u64 = 165;
