//! Chunks of an Automerge file, each in a frame with its type, its length and a checksum.
#![tactic(auto)]

mod cut;
mod digest;
mod encode;
mod fault;
mod frame;
mod laws;
mod reading;

pub use encode::framed;
pub use fault::FrameFault;
pub use frame::{Frame, next_frame};
pub use laws::{one_fault, one_reading};
pub use reading::some_reading;
