//! The rows of a valid set of changes.
#![tactic(auto)]

mod kept;
mod lent;
mod naming;
mod ranked;
mod rows;

pub use am_places::Numbered;
pub use lent::{LentRow, LentRows, lent_rows};
pub use rows::rows_of;
