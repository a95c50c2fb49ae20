//! What the rows of a document show at a clock: the visible entries, read off the rows in place.
#![tactic(auto)]

mod ahead;
mod asked;
mod deferred;
mod laws;
mod objects;
mod scan;
mod shown;
mod slots;
mod tally;

pub use laws::{reads_by_rows, walks_rows};
pub use shown::Shown;
