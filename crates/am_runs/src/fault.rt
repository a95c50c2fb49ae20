//! Why bytes are no column of runs.

use thiserror::Error;

/// The bytes spell no list of at most so many items.
#[derive(Clone, Copy, Debug, PartialEq, Eq, Error)]
#[error("the bytes spell no list of so many items")]
pub struct BadRun;
