//! The elements of a list, as nodes that are linked in their order.
#![tactic(auto)]

mod chain;
mod laws;
mod node;
mod walk;
mod whole;

pub use chain::Chain;
pub use laws::order_is_free;
pub use walk::Walk;
pub use whole::Insertion;
