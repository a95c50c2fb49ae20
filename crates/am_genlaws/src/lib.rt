//! Laws over generated changes. Each function does nothing; its contract is the law.
#![tactic(auto)]

mod laws;

pub use laws::{made_are_fine, made_are_valid};
