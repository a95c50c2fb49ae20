//! Documents taken over by an empty store, beside a store to which their changes are delivered. All are those of the
//! reference encoder.
use crate::alike::{are_alike, go_on_alike};
use crate::calls::{empty, read, read_all};
use crate::deliveries::{FIRST, FIRST_HASH, SECOND};
use crate::loading::refuses;
use crate::saving::{BESIDE, BOTH, DELETED, DELETION, ONE};
use crate::turning::{contents_of, mended};
use am_store::{Counts, LoadFault, Store};
use std::alloc::Global;
use std::process::Abort;

/// A document, how many changes it tells of, and their chunks, the last one first.
type Taken = (&'static [u8], u64, &'static [&'static [u8]]);

const TAKEN: &[Taken] = &[
    (ONE, 1, &[FIRST]),
    (DELETED, 2, &[DELETION, FIRST]),
    (BOTH, 2, &[BESIDE, FIRST]),
];

const NO_CHANGES: Counts = Counts {
    changes: 0,
    operations: 0,
    preds: 0,
    links: 0,
    waiting: 0,
};

#[test]
fn documents_are_taken_over(rt: HostRuntime) {
    for taken in TAKEN {
        let mut store = empty(&rt, rt.alloc());
        let mut other = empty(&rt, rt.alloc());
        let (document, count, chunks) = *taken;
        takes(&rt, rt.alloc(), &mut store, document, count);
        read_all(&rt, rt.alloc(), &mut other, chunks);
        are_alike(&rt, rt.alloc(), &store, &other);
        go_on_alike(&rt, rt.alloc(), &mut store, &mut other);
    }
}

// So many changes join with the document, none waits, and none is rejected.
fn takes(rt: &impl Abort, alloc: Global, store: &mut Store, document: &[u8], count: u64) {
    let report = read(rt, alloc, store, document, false);
    assert_eq!(rt;
        (report.added, report.waiting, report.rejected.len()),
        (count, 0, 0)
    );
}

// A delivery lists the ready change of least hash first, which is that of BESIDE; what is taken over stands as in the
// document.
#[test]
fn what_is_taken_over_stands_as_in_the_document(rt: HostRuntime) {
    let mut store = empty(&rt, rt.alloc());
    takes(&rt, rt.alloc(), &mut store, BOTH, 2);
    assert!(rt; store.graph().place(&FIRST_HASH) == Some(0));
}

#[test]
fn a_document_comes_beside_a_waiting_change(rt: HostRuntime) {
    let mut store = empty(&rt, rt.alloc());
    let mut other = empty(&rt, rt.alloc());
    read_all(&rt, rt.alloc(), &mut store, &[SECOND]);
    takes(&rt, rt.alloc(), &mut store, ONE, 2);
    read_all(&rt, rt.alloc(), &mut other, &[FIRST, SECOND]);
    are_alike(&rt, rt.alloc(), &store, &other);
}

#[test]
fn other_heads_leave_an_empty_store(rt: HostRuntime) {
    let mut store = empty(&rt, rt.alloc());
    let document = mended(&rt, rt.alloc(), contents_of(&rt, ONE), 2, 1);
    let fault = LoadFault::HeadsMismatch(FIRST_HASH);
    refuses(
        &rt,
        rt.alloc(),
        &mut store,
        document.as_slice(),
        false,
        fault,
    );
    assert!(rt; store.counts() == NO_CHANGES);
    takes(&rt, rt.alloc(), &mut store, ONE, 1);
}
