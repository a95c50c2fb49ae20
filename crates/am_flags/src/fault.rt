//! Why bytes are no column of flags.
use thiserror::Error;

/// The bytes spell no list of at most so many flags.
#[derive(Clone, Copy, Debug, PartialEq, Eq, Error)]
#[error("the bytes spell no list of so many flags")]
pub struct BadFlags;
