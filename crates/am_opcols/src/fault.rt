//! Why columns hold no operations.
use thiserror::Error;

/// The columns spell no list of operations, each within its limits.
#[derive(Clone, Copy, Debug, PartialEq, Eq, Error)]
#[error("the columns spell no list of operations")]
pub struct BadOps;
