//! An operation that is lent from its columns.
use am_fields::IdCursor;
use am_types::{KeyRef, ObjRef, ValueRef};

/// An operation, lent from its columns. Its predecessors are read one after another.
#[derive(Drop)]
pub struct OpRef<'a> {
    pub obj: ObjRef<'a>,
    pub key: KeyRef<'a>,
    pub insert: bool,
    /// 0 makeMap, 1 set, 2 makeList, 3 del, 4 makeText, 5 inc, 6 makeTable, 7 mark.
    pub action: u8,
    pub value: ValueRef<'a>,
    pub preds: IdCursor<'a>,
    pub expand: bool,
    pub mark: Option<&'a str>,
}

/// An operation but for its predecessors, lent from its columns.
#[derive(Clone, Copy)]
pub struct OpHead<'a> {
    pub obj: ObjRef<'a>,
    pub key: KeyRef<'a>,
    pub insert: bool,
    pub action: u8,
    pub value: ValueRef<'a>,
    pub expand: bool,
    pub mark: Option<&'a str>,
}
