//! The operations of changes in ascending id, and the places of their slots in the order of a document.
#![tactic(auto)]

mod line;
mod numbered;
mod placed;

pub use line::{Line, line_of};
pub use numbered::{Numbered, ascending_lent, ascending_operations, find, find_near};
pub use placed::{
    Placed, Slot, compare_placed, compare_slots, placed_in, placed_near, sort_placed,
};
