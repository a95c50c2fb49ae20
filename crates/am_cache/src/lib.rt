//! The texts of the views that were used last.
#![tactic(auto)]

mod cache;
mod laws;
mod view;

pub use cache::Cache;
pub use laws::{goes_after_sixteen, stays_among_fifteen, was_put_last};
pub use view::View;
