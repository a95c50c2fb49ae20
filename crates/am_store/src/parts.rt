//! What a store keeps of its closed set.
use crate::unseen::Unseen;
use am_fits::OpIndex;
use am_graph::Graph;
use am_types::Bytes;

/// What is kept of a closed set. The changes themselves are only seen by contracts.
#[derive(Drop)]
pub struct Parts {
    pub closed: Unseen,
    /// The contents of its canonical document.
    pub contents: Bytes,
    pub graph: Graph,
    pub index: OpIndex,
}
