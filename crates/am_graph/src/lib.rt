//! The graph of a set of changes: its heads, ancestors, clocks and canonical order.
#![tactic(auto)]

mod canonical;
mod clock;
mod copy;
mod cutting;
mod fault;
mod find;
mod graph;
mod heads;
mod hints;
mod node;
mod numbered_texts;
mod parts;
mod place;
mod places;
mod reach;
mod text_key;
mod walk;

pub use clock::{Clock, Reached, covers_ancestors_alone};
pub use cutting::valid_sets_have_distinct_seqs;
pub use fault::{Added, ClockFault, GraphFault};
pub use graph::Graph;
pub use node::Node;
pub use numbered_texts::NumberedTexts;
pub use reach::Reach;
