//! Files that come one by one to a store that stages their changes, beside one that merges each.
use crate::alike::are_alike;
use crate::calls::{empty, read};
use crate::deliveries::{FIRST, OTHER, SECOND};
use crate::history::LATE;
use crate::saving::{BESIDE, BOTH, DELETED};
use am_store::{ReadFault, Report, StagedStore, Store};
use std::alloc::Global;
use std::process::Abort;

/// What a test reads, and whether both stores are read behind it.
type Step = (&'static [u8], bool);

/// Changes that join, one that clashes, one that comes again while it is staged, one that waits and leaves nothing to be
/// merged, one that is held, and documents behind staged changes.
const STEPS: &[Step] = &[
    (FIRST, false),
    (BESIDE, false),
    (OTHER, false),
    (BESIDE, false),
    (SECOND, true),
    (LATE, true),
    (SECOND, false),
    (BOTH, true),
    (DELETED, true),
];

fn none_staged(rt: &impl Abort, alloc: Global) -> Box<StagedStore> {
    let staged = StagedStore::new(alloc).expect(rt, "there is memory");
    Box::new(alloc, staged).expect(rt, "there is memory")
}

#[test]
fn staged_changes_are_as_merged_ones(rt: HostRuntime) {
    let mut staged = none_staged(&rt, rt.alloc());
    let mut store = empty(&rt, rt.alloc());
    for step in STEPS {
        let (file, reads) = *step;
        let here = taken(&rt, rt.alloc(), &mut staged, file);
        let there = read(&rt, rt.alloc(), &mut store, file, false);
        assert!(rt; here == there);
        tells(&rt, rt.alloc(), &staged, &store);
        if reads {
            are_alike(
                &rt,
                rt.alloc(),
                settled(&rt, rt.alloc(), &mut staged),
                &store,
            );
        }
    }
}

fn taken(rt: &impl Abort, alloc: Global, staged: &mut StagedStore, file: &[u8]) -> Report {
    staged
        .read_file(alloc, file, false)
        .expect(rt, "the file is read")
}

// What both tell without a document is the same.
fn tells(rt: &impl Abort, alloc: Global, staged: &StagedStore, store: &Store) {
    assert!(rt; staged.counts() == store.counts());
    let here = staged.graph().heads(alloc).expect(rt, "there is memory");
    let there = store.graph().heads(alloc).expect(rt, "there is memory");
    assert!(rt; here == there);
    let here = staged.waiting(alloc).expect(rt, "there is memory");
    let there = store.waiting(alloc).expect(rt, "there is memory");
    assert!(rt; here == there);
}

// The store, once it is settled.
fn settled<'a>(rt: &impl Abort, alloc: Global, staged: &'a mut StagedStore) -> &'a Store {
    staged.settle(alloc).expect(rt, "there is memory");
    staged.store()
}

// A file that is refused leaves what is staged.
#[test]
fn refused_files_change_nothing(rt: HostRuntime) {
    let mut staged = none_staged(&rt, rt.alloc());
    let _first = taken(&rt, rt.alloc(), &mut staged, FIRST);
    let _second = taken(&rt, rt.alloc(), &mut staged, SECOND);
    assert!(rt; !staged.is_settled());
    let before = staged.counts();
    let refused = staged.read_file(rt.alloc(), &[0x85], false);
    assert!(rt; matches!(refused, Err(ReadFault::Load(_))));
    assert!(rt; staged.counts() == before && !staged.is_settled());
}
