//! The columns of a change's operations (Automerge Binary Document Format, "Operation Columns"): a cursor over them,
//! and their canonical writing.
#![tactic(auto)]

mod canonical;
mod cells;
mod columns;
mod counting;
mod cursor;
mod each_column;
mod fault;
mod found;
mod laws;
mod listed;
mod naming;
mod op;
mod others;
mod write;

pub use am_fields::IdCursor as PredCursor;
pub use canonical::are_canonical;
pub use cursor::OpCursor;
pub use fault::BadOps;
pub use found::OpColumns;
pub use laws::{canonical_columns_spell, one_list, others_are_named};
pub use op::{OpHead, OpRef};
pub use write::{OpsText, write_ops};
