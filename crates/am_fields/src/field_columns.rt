//! The columns of the fields that operations and rows have in common.

use crate::actions::ActionColumn;
use crate::flags::FlagColumn;
use crate::keys::KeyColumns;
use crate::objects::ObjectColumns;
use crate::texts::TextColumn;
use crate::values::ValueColumns;

/// The columns of the fields that operations and rows have in common, one of each a row.
#[derive(Drop)]
pub struct FieldColumns<'a> {
    pub objects: ObjectColumns<'a>,
    pub keys: KeyColumns<'a>,
    pub inserts: FlagColumn<'a>,
    pub actions: ActionColumn<'a>,
    pub values: ValueColumns<'a>,
    pub expands: FlagColumn<'a>,
    pub marks: TextColumn<'a>,
}
