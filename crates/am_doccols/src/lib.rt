//! The columns of a document's operation rows and change rows (Automerge Binary Document Format, "Document Chunks"):
//! cursors over them, which take no memory, and their canonical writing.
#![tactic(auto)]

mod fault;
mod finished;
mod gathered;
mod gathered_columns;
mod gathered_writing;
mod laws;
mod lent;
mod meta;
mod meta_columns;
mod meta_finished;
pub mod meta_specifications;
mod meta_writer;
mod metas;
mod row;
mod row_column;
mod row_columns;
mod row_gatherer;
mod row_writer;
mod rows;
mod unnamed;

pub use am_fields::{IdCursor as SuccCursor, IndexCursor};
pub use fault::BadRows;
pub use laws::{canonical_metas_spell, canonical_rows_spell, one_list_of_metas, one_list_of_rows};
pub use lent::{MetaFields, RowFields, fields_of, meta_fields_of};
pub use meta::MetaRef;
pub use meta_writer::MetaWriter;
pub use metas::MetaCursor;
pub use row::RowRef;
pub use row_columns::RowColumns;
pub use row_gatherer::RowGatherer;
pub use row_writer::RowWriter;
pub use rows::RowCursor;
