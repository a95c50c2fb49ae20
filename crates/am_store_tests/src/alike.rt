//! Two stores beside one another.
use crate::calls::{heads, history, read, same_bytes, save_all};
use crate::deliveries::{OTHER, SECOND};
use crate::saving::{BESIDE, DELETION};
use am_store::Store;
use std::alloc::Global;
use std::process::Abort;

/// Changes that come later: each joins, is there, or clashes with what is.
const LATER: &[&[u8]] = &[SECOND, OTHER, BESIDE, DELETION];

/// Both hold the same.
pub(crate) fn are_alike(rt: &impl Abort, alloc: Global, store: &Store, other: &Store) {
    assert!(rt; store.counts() == other.counts());
    assert!(rt; heads(rt, alloc, store) == heads(rt, alloc, other));
    assert!(rt; history(rt, alloc, store) == history(rt, alloc, other));
    let here = save_all(rt, alloc, store);
    let there = save_all(rt, alloc, other);
    same_bytes(rt, here.as_slice(), there.as_slice());
}

/// Both are told the same of what comes later, and hold the same afterwards.
pub(crate) fn go_on_alike(rt: &impl Abort, alloc: Global, store: &mut Store, other: &mut Store) {
    for file in LATER {
        let here = read(rt, alloc, store, *file, true);
        let there = read(rt, alloc, other, *file, true);
        assert!(rt; here == there);
        are_alike(rt, alloc, store, other);
    }
}
