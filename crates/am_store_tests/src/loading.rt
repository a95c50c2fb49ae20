//! Documents that the reference encoder made, loaded into a store, and what is wrong where a bit of one is turned.
use crate::calls::{change, empty, read, same_bytes};
use crate::deliveries::{FIRST, FIRST_HASH};
use crate::saving::{BESIDE, BOTH, DELETED, DELETION, ONE};
use crate::turning::{contents_of, mended};
use am_frame::next_frame;
use am_store::{LoadFault, ReadFault, Store};
use am_types::Hash;
use std::alloc::Global;
use std::process::Abort;

/// Documents, each with the chunks of its changes.
const LOADED: &[(&[u8], [&[u8]; 2])] = &[(DELETED, [FIRST, DELETION]), (BOTH, [FIRST, BESIDE])];

#[test]
fn documents_give_the_chunks_of_their_changes(rt: HostRuntime) {
    for (document, chunks) in LOADED {
        let mut store = empty(&rt, rt.alloc());
        let _report = read(&rt, rt.alloc(), &mut store, *document, false);
        for chunk in chunks {
            gives(&rt, rt.alloc(), &store, *chunk);
        }
    }
}

fn gives(rt: &impl Abort, alloc: Global, store: &Store, chunk: &[u8]) {
    let hash = next_frame(chunk).expect(rt, "it is a chunk").hash;
    same_bytes(rt, change(rt, alloc, store, &hash).as_slice(), chunk);
}

/// The hash of the first change at a time of -1.
const EARLIER_HASH: Hash = Hash([
    0x16, 0x66, 0x43, 0x4b, 0xd3, 0x4f, 0xb1, 0x02, 0x23, 0xb5, 0x2a, 0x90, 0x78, 0xd4, 0x06, 0xea,
    0x00, 0x5c, 0x6c, 0x6d, 0x98, 0x5f, 0xcb, 0x8d, 0x87, 0x54, 0x91, 0x20, 0x40, 0xc6, 0x52, 0x18,
]);

/// Places in the contents of the document of the first change, and what is wrong where the lowest bit there is turned.
const TURNED: &[(usize, LoadFault)] = &[
    (0, LoadFault::BadDocument),
    (2, LoadFault::HeadsMismatch(FIRST_HASH)),
    (36, LoadFault::CompressedColumn),
    (72, LoadFault::NoHistory),
    (74, LoadFault::HeadsMismatch(EARLIER_HASH)),
];

#[test]
fn bad_documents_are_refused(rt: HostRuntime) {
    let mut store = empty(&rt, rt.alloc());
    for (place, fault) in TURNED {
        let document = mended(&rt, rt.alloc(), contents_of(&rt, ONE), *place, 1);
        refuses(
            &rt,
            rt.alloc(),
            &mut store,
            document.as_slice(),
            false,
            *fault,
        );
        refuses(
            &rt,
            rt.alloc(),
            &mut store,
            document.as_slice(),
            true,
            LoadFault::DocumentHere,
        );
    }
}

/// This is wrong with the file.
pub(crate) fn refuses(
    rt: &impl Abort,
    alloc: Global,
    store: &mut Store,
    file: &[u8],
    only_changes: bool,
    fault: LoadFault,
) {
    match store.read_file(alloc, file, only_changes) {
        Err(ReadFault::Load(error)) => assert_eq!(rt; error.fault, fault),
        _ => assert!(rt; false),
    }
}
