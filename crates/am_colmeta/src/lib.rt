//! Column metadata, the columns that it cuts out of a body, and lists of actors.
#![tactic(auto)]

mod actors;
mod columns;
mod fault;
mod laws;
mod list;
mod parts;
mod writer;

pub use actors::ActorList;
pub use columns::Columns;
pub use fault::{BadColumns, ColumnFault};
pub use laws::{empty_left_out, one_actor_list, one_cut, one_judgement, one_list};
pub use list::ColumnList;
pub use writer::{ColumnWriter, push_metadata};
