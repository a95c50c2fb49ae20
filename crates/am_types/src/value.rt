//! Values as a document file has them.
use crate::bytes::Bytes;

/// A value as its kind, from 0 to 15, and its bytes. (Automerge Binary Document Format, "value metadata".)
#[derive(Debug, PartialEq, Eq, Drop)]
pub struct RawValue {
    /// 0 null, 1 false, 2 true, 3 unsigned, 4 signed, 5 float, 6 text, 7 bytes, 8 counter, 9 timestamp; others unknown.
    pub kind: u8,
    /// The bytes, as the kind wants them; empty for null, false and true.
    pub raw: Bytes,
}
