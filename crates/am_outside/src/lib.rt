//! What a program meets outside: an input, an output and a folder, each a trait whose meanings contracts can name.
//! Each has a version in memory, which tells its content and fails at the calls of a list, one that tells its content
//! and never fails, and a real one, which tells nothing but its counts.
#![tactic(auto)]

mod copying;
mod faults;
mod folder;
mod host_folder;
mod memory_folder;
mod memory_sink;
mod memory_source;
mod read_source;
mod sink;
mod source;
mod stored_files;
mod sure_folder;
mod sure_sink;
mod sure_source;
mod write_sink;

pub use faults::{Failed, FetchFault, WriteFault};
pub use folder::Folder;
pub use host_folder::HostFolder;
pub use memory_folder::MemoryFolder;
pub use memory_sink::MemorySink;
pub use memory_source::MemorySource;
pub use read_source::ReadSource;
pub use sink::Sink;
pub use source::Source;
pub use sure_folder::SureFolder;
pub use sure_sink::SureSink;
pub use sure_source::SureSource;
pub use write_sink::WriteSink;
