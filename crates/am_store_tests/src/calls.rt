//! The calls of a store, where there is memory. Each stands here once and is called from here, without the contract, so that
//! the tests are proved quickly. So are they with a store in a box: a proof lets go of a box in one step, where a store is
//! let go part by part.
use am_store::{HistoryLine, Report, Store};
use am_types::{Bytes, Hash, List, Twin};
use std::alloc::Global;
use std::process::Abort;

pub(crate) fn empty(rt: &impl Abort, alloc: Global) -> Box<Store> {
    let store = Store::new(alloc).expect(rt, "there is memory");
    Box::new(alloc, store).expect(rt, "there is memory")
}

pub(crate) fn read(
    rt: &impl Abort,
    alloc: Global,
    store: &mut Store,
    file: &[u8],
    only_changes: bool,
) -> Report {
    store
        .read_file(alloc, file, only_changes)
        .expect(rt, "the file is read")
}

/// Reads files of changes, one after another.
pub(crate) fn read_all(rt: &impl Abort, alloc: Global, store: &mut Store, files: &[&[u8]]) {
    for file in files {
        let _report = read(rt, alloc, store, *file, true);
    }
}

pub(crate) fn heads(rt: &impl Abort, alloc: Global, store: &Store) -> List<Hash> {
    store.graph().heads(alloc).expect(rt, "there is memory")
}

pub(crate) fn waiting(rt: &impl Abort, alloc: Global, store: &Store) -> List<Hash> {
    store.waiting(alloc).expect(rt, "there is memory")
}

pub(crate) fn history(rt: &impl Abort, alloc: Global, store: &Store) -> List<HistoryLine> {
    store.history(alloc).expect(rt, "there is memory")
}

pub(crate) fn save(rt: &impl Abort, alloc: Global, store: &Store) -> Bytes {
    store.save(alloc).expect(rt, "there is memory")
}

pub(crate) fn save_all(rt: &impl Abort, alloc: Global, store: &Store) -> Bytes {
    store.save_all(alloc).expect(rt, "there is memory")
}

/// The chunk of the change with this hash, which the store holds.
pub(crate) fn change(rt: &impl Abort, alloc: Global, store: &Store, hash: &Hash) -> Bytes {
    let found = store.change(alloc, hash).expect(rt, "there is memory");
    found.expect(rt, "the change is held")
}

pub(crate) fn copy(rt: &impl Abort, alloc: Global, store: &Store) -> Box<Store> {
    let twin = store.copy(alloc).expect(rt, "there is memory");
    Box::new(alloc, twin).expect(rt, "there is memory")
}

pub(crate) fn same_bytes(rt: &impl Abort, here: &[u8], there: &[u8]) {
    assert_eq!(rt; here, there);
}
