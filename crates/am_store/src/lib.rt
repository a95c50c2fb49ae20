//! A store of changes: a closed set, and the changes that wait for dependencies. Files are delivered to it whole or not
//! at all.
#![tactic(auto)]

mod any_file;
mod chunk;
mod contents;
mod copies;
mod fault;
mod file;
mod file_changes;
mod growing;
mod hashing;
mod history;
mod laws;
mod lists;
mod parts;
mod rebuilding;
mod report;
mod room;
mod saving;
mod staged_store;
mod staging;
mod store;
mod unseen;
mod unsettled;
mod waiting;

pub use am_graph::ClockFault;
pub use am_types::{Rejected, Why};
pub use any_file::some_reading;
pub use fault::{LoadError, LoadFault, ReadFault};
pub use history::HistoryLine;
pub use laws::{documents_are_read_back, documents_tell_sets, one_reading};
pub use report::{Counts, Report};
pub use staged_store::StagedStore;
pub use store::Store;
