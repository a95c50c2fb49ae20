//! Numbers in LEB128 (unsigned and signed, DWARF's encoding), of at most 64 bits and in the shortest spelling alone.
#![tactic(auto)]

mod fault;
mod signed;
mod spelling;
mod unsigned;

pub use fault::LebFault;
pub use signed::{one_signed_spelling, push_i, read_i, signed_byte};
pub use unsigned::{completed, one_spelling, push_u, read_u, unsigned_byte};
