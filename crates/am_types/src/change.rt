//! Changes and their operations.
use crate::actor::ActorId;
use crate::bytes::Bytes;
use crate::hash::Hash;
use crate::ids::{Key, ObjId, OpId};
use crate::list::List;
use crate::text::Text;
use crate::value::RawValue;

/// An operation of a change. Its id follows from its place there. (Automerge Binary Document Format, "operations".)
#[derive(Debug, PartialEq, Eq, Drop)]
pub struct Op {
    /// The operations that it replaces, deletes or adds to.
    pub preds: List<OpId>,
    /// Whether it makes a new element.
    pub insert: bool,
    /// Whether a mark grows with what is inserted at its end.
    pub expand: bool,
    /// 0 makeMap, 1 set, 2 makeList, 3 del, 4 makeText, 5 inc, 6 makeTable, 7 mark.
    pub action: u8,
    /// The object in which it stands.
    pub obj: ObjId,
    /// The place in the object; of an insertion, the element behind which the new one goes.
    pub key: Key,
    /// The value that it carries: what it sets, or what it adds to a counter.
    pub value: RawValue,
    /// The name of a mark.
    pub mark: Option<Text>,
}

/// A batch of operations that one actor made at once. (Automerge Binary Document Format, "change chunks".)
#[derive(Debug, PartialEq, Eq, Drop)]
pub struct Change {
    /// The hashes of the changes that it builds on; with their ancestors, all that its author had seen.
    pub deps: List<Hash>,
    /// Who made it.
    pub actor: ActorId,
    /// 1 for the actor's first change, and one more for each later one.
    pub seq: u64,
    /// The counter of its first operation.
    pub start: u64,
    /// When it was made, in milliseconds since 1970.
    pub time: i64,
    /// What its author noted about it, often nothing.
    pub message: Text,
    /// Its operations; there may be none.
    pub ops: List<Op>,
    /// Bytes of a later version of the format.
    pub extra: Bytes,
}
