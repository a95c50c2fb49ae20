//! What a store is made of.
use super::*;
use std::process::Abort;

// The pattern has no `..`, so a further field, such as a list of decoded changes, is a compile error here.
#[test]
fn an_empty_store_has_these_parts_alone(rt: HostRuntime) {
    let store = Store::new(rt.alloc()).expect(&rt, "there is memory");
    let Store {
        contents,
        graph: _,
        index,
        waiting,
        counts,
        alloc: _,
        closed: _,
    } = &store;
    assert!(rt; contents.as_slice() == [0, 0, 0, 0].as_slice());
    assert!(rt; index.totals().operations == 0);
    assert!(rt; waiting.changes.is_empty() && waiting.pending.is_none());
    assert!(rt; counts.changes == 0 && counts.waiting == 0);
}
