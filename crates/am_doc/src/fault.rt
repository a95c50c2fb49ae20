//! Why contents are those of no document.
use thiserror::Error;

/// Why the contents of a chunk weren't read as a document.
#[derive(Clone, Copy, Debug, PartialEq, Eq, Error)]
pub enum DocFault {
    /// The contents spell no table, and they don't count as compressed.
    #[error("the contents are those of no document")]
    BadDocument,
    /// The parts in front of the columns can be read, each number within 64 bits, and list a column that is compressed by
    /// DEFLATE. This is told whatever else is wrong, in these parts or behind them.
    #[error("a column is compressed")]
    CompressedColumn,
}
