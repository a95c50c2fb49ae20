//! The visible values of a valid set of changes, by applying its operations one after the other.
#![tactic(auto)]

mod laws;
mod placed;
mod states;
mod visible;

pub use laws::entries_are_in_order;
pub use visible::replay;
