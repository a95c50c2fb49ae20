//! A store and its copy, which go on apart.
use crate::alike::{are_alike, go_on_alike};
use crate::calls::{copy, empty, read, read_all, same_bytes, waiting};
use crate::history::LATE;
use crate::saving::{BESIDE, DELETED};
use am_store::Store;
use std::alloc::Global;
use std::process::Abort;

#[test]
fn a_copy_is_alike(rt: HostRuntime) {
    let alloc = rt.alloc();
    let mut store = empty(&rt, alloc);
    let _report = read(&rt, alloc, &mut store, DELETED, false);
    read_all(&rt, alloc, &mut store, &[BESIDE, LATE]);
    let mut twin = copy(&rt, alloc, &store);
    are_alike(&rt, alloc, &store, &twin);
    have_one_list(&rt, alloc, &store, &twin);
    go_on_alike(&rt, alloc, &mut store, &mut twin);
}

// The contents, the three changes, and the one that waits.
fn have_one_list(rt: &impl Abort, alloc: Global, store: &Store, twin: &Store) {
    same_bytes(rt, store.contents(), twin.contents());
    let here = store.closed(alloc).expect(rt, "there is memory");
    let there = twin.closed(alloc).expect(rt, "there is memory");
    assert!(rt; here.len() == 3 && here == there);
    let here = waiting(rt, alloc, store);
    let there = waiting(rt, alloc, twin);
    assert!(rt; here.len() == 1 && here == there);
}
