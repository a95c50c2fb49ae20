//! Why no number stands first.
use thiserror::Error;

/// Why the bytes begin with no shortest spelling of a number of 64 bits.
#[derive(Clone, Copy, Debug, PartialEq, Eq, Error)]
pub enum LebFault {
    /// The bytes end within the number: fewer than ten stand, and each says that more follow.
    #[error("the number is cut off")]
    Short,
    /// The number is in range, and a shorter list of bytes spells it.
    #[error("the number has a shorter spelling")]
    Long,
    /// The number is out of range, or doesn't end within ten bytes.
    #[error("the number is out of range")]
    Large,
}
