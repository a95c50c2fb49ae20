//! Single change chunks: which changes are fine, their contents, chunks and hashes, and reading them back.
#![tactic(auto)]

mod change_ref;
mod copying;
mod fault;
mod fine;
mod fine_op;
mod fine_parts;
mod front;
mod hash_list;
mod hashing;
mod laws;
mod numbers;
mod parse;
mod write;

pub use change_ref::ChangeRef;
pub use fault::ChangeFault;
pub use fine::is_fine;
pub use hash_list::HashList;
pub use hashing::{with_hash, with_hashes};
pub use laws::{contents_tell_changes, one_hash_list, one_judgement};
pub use parse::{parse_change, parse_change_sharing};
pub use write::{chunk_of, contents_of, hash_of};
