//! Why column metadata, a list of actors or the columns of a body are refused.
use thiserror::Error;

/// The number of parts and that many parts don't begin the bytes.
#[derive(Clone, Copy, Debug, PartialEq, Eq, Error)]
#[error("the list can't be read")]
pub struct BadColumns;

/// Why a body can't be cut into the columns that its metadata list. Where several causes stand together, the first
/// of this list is told.
#[derive(Clone, Copy, Debug, PartialEq, Eq, Error)]
pub enum ColumnFault {
    /// A column is compressed by DEFLATE: bit 3 of its specification is set.
    #[error("a column is compressed")]
    CompressedColumn,
    /// A specification isn't above the one before it.
    #[error("the columns aren't in ascending order")]
    NotAscending,
    /// A specification isn't among the known ones: this is the first.
    #[error("the column {0} isn't known")]
    UnknownColumn(u64),
    /// The lengths together aren't the length of the body.
    #[error("the columns don't fill the body")]
    Width,
}
