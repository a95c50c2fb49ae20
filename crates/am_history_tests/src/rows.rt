//! Tests of am_rows: the rows of small histories, which another program made of them too.
use crate::samples::{ACTIONS, COUNTERS, Sample, TEXTS, VALUES, begins_mark};
use crate::valid_set::valid_set;
use am_rows::rows_of;
use am_types::{Key, ObjId, OpId, Row};
use std::alloc::Global;
use std::test::Fail;

// A counter beside the actor.
type Id = (u64, u8);

// The counter of the object or 0 for the root; the name, or none and then the counter of the element or 0 for the front;
// the id; whether it is an insertion; the action, the kind and the bytes of the value; the successors.
type Expected = (
    u64,
    &'static str,
    u64,
    Id,
    bool,
    u8,
    u8,
    &'static [u8],
    &'static [Id],
);

fn is_id(id: &OpId, expected: Id) -> bool {
    id.counter == expected.0 && id.actor.as_slice() == &[expected.1][..]
}

fn is_object(object: &ObjId, counter: u64) -> bool {
    match object {
        ObjId::Root => counter == 0,
        ObjId::Made(id) => is_id(id, (counter, 0xaa)),
    }
}

fn is_key(key: &Key, name: &str, counter: u64) -> bool {
    match key {
        Key::Name(text) => text.as_str() == name,
        Key::Head => name.is_empty() && counter == 0,
        Key::Elem(id) => name.is_empty() && is_id(id, (counter, 0xaa)),
    }
}

fn are_ids(ids: &[OpId], expected: &[Id]) -> bool {
    if ids.len() != expected.len() {
        return false;
    }
    for i in 0..expected.len() {
        match ids.get(i) {
            Some(id) => {
                if !is_id(id, expected[i]) {
                    return false;
                }
            }
            None => return false,
        }
    }
    true
}

fn is_mark(row: &Row, begins: bool) -> bool {
    match &row.mark {
        Some(name) => begins && row.expand && name.as_str() == "bold",
        None => !begins && !row.expand,
    }
}

fn is_row(row: &Row, expected: &Expected) -> bool {
    let (object, name, counter, id, insert, action, kind, raw, succs) = *expected;
    let placed = is_object(&row.obj, object) && is_key(&row.key, name, counter);
    let valued = row.value.kind == kind && row.value.raw.as_slice() == raw;
    placed
        && valued
        && is_id(&row.id, id)
        && row.insert == insert
        && row.action == action
        && are_ids(row.succs.as_slice(), succs)
        && is_mark(row, begins_mark(action, kind))
}

fn are_rows(rows: &[Row], expected: &[Expected]) -> bool {
    if rows.len() != expected.len() {
        return false;
    }
    for i in 0..expected.len() {
        match rows.get(i) {
            Some(row) => {
                if !is_row(row, &expected[i]) {
                    return false;
                }
            }
            None => return false,
        }
    }
    true
}

fn has_rows(
    alloc: Global,
    samples: &[Sample],
    numbers: &[usize],
    expected: &[Expected],
) -> Result<bool, Fail> {
    let changes = valid_set(alloc, samples, numbers)?;
    let rows = rows_of(alloc, changes.as_slice())?;
    Ok(are_rows(rows.as_slice(), expected))
}

// The samples of each history, the numbers of its changes, and its rows.
const HISTORIES: &[(&[Sample], &[usize], &[Expected])] = &[
    // a value, and its deletion
    (
        VALUES,
        &[0, 3],
        &[(0, "a", 0, (1, 0xaa), false, 1, 3, &[1], &[(2, 0xaa)])],
    ),
    // two values that were set at the same time
    (
        VALUES,
        &[1, 0],
        &[
            (0, "a", 0, (1, 0xaa), false, 1, 3, &[1], &[]),
            (0, "a", 0, (1, 0xbb), false, 1, 3, &[2], &[]),
        ],
    ),
    // a text, and a letter that each of two others put into it
    (
        TEXTS,
        &[0, 1, 2],
        &[
            (0, "t", 0, (1, 0xaa), false, 4, 0, b"", &[]),
            (1, "", 0, (2, 0xaa), true, 1, 6, b"a", &[]),
            (1, "", 2, (4, 0xcc), true, 1, 6, b"y", &[]),
            (1, "", 2, (4, 0xbb), true, 1, 6, b"x", &[]),
            (1, "", 2, (3, 0xaa), true, 1, 6, b"b", &[]),
        ],
    ),
    // a counter, two increments, and its deletion
    (
        COUNTERS,
        &[3, 2, 1, 0],
        &[
            (
                0,
                "n",
                0,
                (1, 0xaa),
                false,
                1,
                8,
                &[10],
                &[(2, 0xbb), (2, 0xcc), (3, 0xaa)],
            ),
            (0, "n", 0, (2, 0xbb), false, 5, 4, &[5], &[]),
            (0, "n", 0, (2, 0xcc), false, 5, 4, &[0x7d], &[]),
        ],
    ),
    // each action
    (
        ACTIONS,
        &[0],
        &[
            (0, "l", 0, (2, 0xaa), false, 2, 0, b"", &[]),
            (0, "m", 0, (1, 0xaa), false, 0, 0, b"", &[]),
            (0, "t", 0, (3, 0xaa), false, 4, 0, b"", &[]),
            (1, "q", 0, (4, 0xaa), false, 6, 0, b"", &[]),
            (2, "", 0, (7, 0xaa), true, 1, 6, b"a", &[(9, 0xaa)]),
            (2, "", 7, (8, 0xaa), true, 0, 0, b"", &[(10, 0xaa)]),
            (2, "", 8, (10, 0xaa), false, 1, 3, &[2], &[]),
            (3, "", 0, (11, 0xaa), true, 7, 2, b"", &[]),
            (3, "", 11, (12, 0xaa), true, 1, 6, b"b", &[]),
            (3, "", 12, (13, 0xaa), true, 7, 0, b"", &[]),
            (4, "n", 0, (5, 0xaa), false, 1, 8, &[10], &[(6, 0xaa)]),
            (4, "n", 0, (6, 0xaa), false, 5, 4, &[5], &[]),
        ],
    ),
];

#[test]
fn rows_of_small_histories(rt: HostRuntime) -> Result<(), Fail> {
    for (samples, numbers, expected) in HISTORIES {
        assert!(rt; has_rows(rt.alloc(), *samples, *numbers, *expected)?);
    }
    Ok(())
}
