//! What a document file says, and what a reader sees in it.
use crate::actor::ActorId;
use crate::bytes::Bytes;
use crate::hash::Hash;
use crate::ids::{Key, ObjId, OpId};
use crate::list::List;
use crate::text::Text;
use crate::value::RawValue;

/// An operation row of a document: an operation that is no deletion, with the operations that name it as a
/// predecessor. (Automerge Binary Document Format, "document chunks".)
#[derive(Debug, PartialEq, Eq, Drop)]
pub struct Row {
    /// The object in which it stands.
    pub obj: ObjId,
    /// The place in the object.
    pub key: Key,
    /// Its id.
    pub id: OpId,
    /// Whether it makes a new element.
    pub insert: bool,
    /// As in an operation; never a deletion.
    pub action: u8,
    /// The value that it carries.
    pub value: RawValue,
    /// The operations that name it as a predecessor, ascending; none where nothing came after it.
    pub succs: List<OpId>,
    /// Whether a mark grows with what is inserted at its end.
    pub expand: bool,
    /// The name of a mark.
    pub mark: Option<Text>,
}

/// A change row of a document: a change without its operations, with the places of its dependencies among the rows.
#[derive(Debug, PartialEq, Eq, Drop)]
pub struct Meta {
    /// Who made the change.
    pub actor: ActorId,
    /// Its place among the actor's changes, from 1.
    pub seq: u64,
    /// The counter of the change's last operation; its start less 1 where it has none.
    pub max: u64,
    /// In milliseconds since 1970.
    pub time: i64,
    /// What its author noted about it, often nothing.
    pub message: Text,
    /// The places of its dependencies among the change rows, from 0.
    pub deps: List<u64>,
    /// Bytes of a later version of the format.
    pub extra: Bytes,
}

/// All that the contents of a document say. The suffix has the place of each head among the change rows.
#[derive(Debug, PartialEq, Eq, Drop)]
pub struct Table {
    /// The actors, ascending.
    pub actors: List<ActorId>,
    /// The hashes of the heads, ascending.
    pub heads: List<Hash>,
    /// The change rows.
    pub metas: List<Meta>,
    /// The operation rows.
    pub rows: List<Row>,
    /// The place of each head among the change rows, from 0; None where there are no heads.
    pub suffix: Option<List<u64>>,
}

/// A visible value. The total of a counter is its value with all that was added to it, and 0 for any other value.
#[derive(Debug, PartialEq, Eq, Drop)]
pub struct Entry {
    /// The object in which it stands.
    pub obj: ObjId,
    /// The place in the object; of an element, the element itself.
    pub slot: Key,
    /// The operation that set or made it.
    pub id: OpId,
    /// The action of that operation: a set or a make.
    pub action: u8,
    /// The value that it set.
    pub value: RawValue,
    /// What a counter stands at; 0 for any other value.
    pub total: i128,
}

/// The visible values of some changes, in document order.
#[derive(Debug, PartialEq, Eq, Drop)]
pub struct Document {
    /// In document order.
    pub entries: List<Entry>,
}
