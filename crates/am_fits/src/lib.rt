//! Whether a change fits a valid set of changes, by the graph of the set and an index of its operations.
#![tactic(auto)]

mod ancestors;
mod fit;
mod index;
mod known;
mod runs;
mod seen;
mod spans;
mod table;
mod texts;

pub use am_types::{Limit, Totals, Verdict};
pub use fit::fits;
pub use index::OpIndex;
