//! Ids of operations, and the objects and places that they name.
use crate::actor::ActorId;
use crate::text::Text;

/// The id of an operation: a counter, which rises along the history, and the actor who made it. (Automerge Binary
/// Document Format, "operation IDs".)
#[derive(Debug, PartialEq, Eq, Drop)]
pub struct OpId {
    /// From 1 to 2^53 - 1 in a fine change.
    pub counter: u64,
    /// Who made the operation.
    pub actor: ActorId,
}

/// An object: the map that every document begins with, or what the operation with this id made.
#[derive(Debug, PartialEq, Eq, Drop)]
pub enum ObjId {
    /// The map that every document begins with.
    Root,
    /// What the operation with this id made.
    Made(OpId),
}

/// A place within an object: a name in a map or a table; in a list or a text the front, or the element that the
/// operation with this id inserted.
#[derive(Debug, PartialEq, Eq, Drop)]
pub enum Key {
    /// A name in a map or a table.
    Name(Text),
    /// The front of a list or a text.
    Head,
    /// The element that the operation with this id inserted.
    Elem(OpId),
}
