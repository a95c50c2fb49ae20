//! The columns of operation rows, each by itself.
use am_fields::{
    ActionColumn, FlagColumn, GroupColumns, IdColumns, KeyColumns, ObjectColumns, TextColumn,
    ValueColumns,
};

/// The columns of operation rows, of which each has one item a row. The rows are `rows_in`, if `AreEven` (specs/Rows.antt).
#[derive(Drop)]
pub struct RowColumns<'a> {
    pub objects: ObjectColumns<'a>,
    pub keys: KeyColumns<'a>,
    pub ids: IdColumns<'a>,
    pub inserts: FlagColumn<'a>,
    pub actions: ActionColumn<'a>,
    pub values: ValueColumns<'a>,
    pub succs: GroupColumns<'a>,
    pub expands: FlagColumn<'a>,
    pub marks: TextColumn<'a>,
}
