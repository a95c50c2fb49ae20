//! Rows that are gathered before they are written.
use am_types::{IdRef, Op};

/// The operation of a row beside its id, both lent, and how many successors the row has.
#[derive(Clone, Copy)]
pub struct GatheredRow<'a> {
    pub id: IdRef<'a>,
    pub op: &'a Op,
    pub succs: u64,
}
