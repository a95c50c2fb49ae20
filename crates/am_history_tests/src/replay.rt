//! Tests of am_replay: entries of histories that other programs were given too.
use crate::samples::{COUNTERS, Sample, TEXTS, VALUES};
use crate::valid_set::valid_set;
use am_replay::replay;
use am_types::{Document, Entry, Key, ObjId, compare_ids};
use std::alloc::Global;
use std::test::Fail;

// The counter of the object's id, or 0; the name, or none for an element that is its own slot; the counter and the first
// byte of the actor of the id; the action, the kind and the bytes of the value, and the total.
type Row = (u64, &'static str, u64, u8, u8, u8, &'static [u8], i128);

fn object_counter(object: &ObjId) -> u64 {
    match object {
        ObjId::Root => 0,
        ObjId::Made(id) => id.counter,
    }
}

fn is_slot(entry: &Entry, name: &str) -> bool {
    match &entry.slot {
        Key::Name(text) => text.as_str() == name,
        Key::Head => false,
        Key::Elem(id) => name.is_empty() && compare_ids(id.lend(), entry.id.lend()).is_eq(),
    }
}

fn is_row(entry: &Entry, row: &Row) -> bool {
    let (object, name, counter, actor, action, kind, raw, total) = *row;
    let placed = object_counter(&entry.obj) == object && is_slot(entry, name);
    let named = entry.id.counter == counter
        && entry.id.actor.as_slice().first().copied() == Some(actor);
    let valued = entry.value.kind == kind && entry.value.raw.as_slice() == raw;
    placed && named && valued && entry.action == action && entry.total == total
}

// The first entries are these.
fn are_rows(entries: &[Entry], rows: &[Row]) -> bool {
    for i in 0..rows.len() {
        match entries.get(i) {
            Some(entry) => {
                if !is_row(entry, &rows[i]) {
                    return false;
                }
            }
            None => return false,
        }
    }
    true
}

// What the changes with these numbers show, in the order of the numbers.
fn shown(alloc: Global, samples: &[Sample], numbers: &[usize]) -> Result<Document, Fail> {
    let changes = valid_set(alloc, samples, numbers)?;
    Ok(replay(alloc, changes.as_slice())?)
}

fn shows(alloc: Global, samples: &[Sample], numbers: &[usize], rows: &[Row]) -> Result<bool, Fail> {
    let document = shown(alloc, samples, numbers)?;
    let entries = document.entries.as_slice();
    Ok(entries.len() == rows.len() && are_rows(entries, rows))
}

const LINES: &[Row] = &[
    (0, "t", 1, 0xaa, 4, 0, b"", 0),
    (1, "", 2, 0xaa, 1, 6, b"a", 0),
    (1, "", 4, 0xcc, 1, 6, b"y", 0),
    (1, "", 4, 0xbb, 1, 6, b"x", 0),
    (1, "", 3, 0xaa, 1, 6, b"b", 0),
];

const ORDERS: &[[usize; 3]] = &[
    [0, 1, 2],
    [0, 2, 1],
    [1, 0, 2],
    [1, 2, 0],
    [2, 0, 1],
    [2, 1, 0],
];

#[test]
fn letters_at_one_place_in_any_order(rt: HostRuntime) -> Result<(), Fail> {
    for order in ORDERS {
        assert!(rt; shows(rt.alloc(), TEXTS, order, LINES)?);
    }
    Ok(())
}

const TEN: &[u8] = &[0x0a];

const GREATEST: &[u8] = &[0xff, 0xff, 0xff, 0xff, 0xff, 0xff, 0xff, 0xff, 0xff, 0];

// The changes at the heads, and what they show.
const READS: &[(&[usize], &[Row])] = &[
    (&[0], &[(0, "n", 1, 0xaa, 1, 8, TEN, 10)]),
    (&[0, 1], &[(0, "n", 1, 0xaa, 1, 8, TEN, 15)]),
    (&[0, 2], &[(0, "n", 1, 0xaa, 1, 8, TEN, 7)]),
    (&[2, 1, 0], &[(0, "n", 1, 0xaa, 1, 8, TEN, 12)]),
    (&[0, 1, 2, 3], &[]),
    (
        &[4],
        &[(0, "n", 1, 0xaa, 1, 8, GREATEST, 9_223_372_036_854_775_807)],
    ),
    (
        &[4, 5],
        &[(0, "n", 1, 0xaa, 1, 8, GREATEST, 9_223_372_036_854_775_812)],
    ),
];

#[test]
fn counters_at_all_heads(rt: HostRuntime) -> Result<(), Fail> {
    for (numbers, rows) in READS {
        assert!(rt; shows(rt.alloc(), COUNTERS, *numbers, *rows)?);
    }
    Ok(())
}

const BOTH: &[Row] = &[
    (0, "a", 1, 0xaa, 1, 3, &[1], 0),
    (0, "a", 1, 0xbb, 1, 3, &[2], 0),
];

const SETS: &[(&[usize], &[Row])] = &[
    (&[0, 1], BOTH),
    (&[1, 0], BOTH),
    (&[0, 2], &[(0, "a", 2, 0xaa, 1, 3, &[2], 0)]),
    (&[0, 3], &[]),
];

#[test]
fn values_that_were_set(rt: HostRuntime) -> Result<(), Fail> {
    for (numbers, rows) in SETS {
        assert!(rt; shows(rt.alloc(), VALUES, *numbers, *rows)?);
    }
    Ok(())
}
