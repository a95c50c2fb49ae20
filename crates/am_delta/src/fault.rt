//! Why bytes are no column of deltas.
use thiserror::Error;

/// The bytes spell no list of at most so many values, each within the bounds.
#[derive(Clone, Copy, Debug, PartialEq, Eq, Error)]
#[error("the bytes spell no list of so many values within the bounds")]
pub struct BadDelta;
