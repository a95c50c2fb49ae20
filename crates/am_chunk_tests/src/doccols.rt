//! Outside values: the columns of a document that holds one set key, and of one that holds that key and its deletion;
//! and columns as other producers write them.
use am_colmeta::{ActorList, ColumnList, Columns};
use am_doccols::{IndexCursor, MetaCursor, MetaRef, RowCursor, RowRef, SuccCursor};
use am_types::{KeyRef, ObjRef};
use std::process::Abort;

const ROW_SPECS: [u64; 16] = [
    1, 2, 17, 19, 21, 33, 35, 52, 66, 86, 87, 128, 129, 131, 148, 165,
];

const META_SPECS: [u64; 9] = [1, 3, 19, 35, 53, 64, 67, 86, 87];

const ACTORS: [u8; 3] = [0x01, 0x01, 0xaa];

// One row, which sets the name `a` to 1 and was deleted.
const ROWS_METADATA: [u8; 24] = [
    0x0a, 0x15, 0x03, 0x21, 0x02, 0x23, 0x02, 0x34, 0x01, 0x42, 0x02, 0x56, 0x02, 0x57, 0x01, 0x80,
    0x01, 0x02, 0x81, 0x01, 0x02, 0x83, 0x01, 0x02,
];

const ROWS_BODY: [u8; 19] = [
    0x7f, 0x01, 0x61, 0x7f, 0x00, 0x7f, 0x01, 0x01, 0x7f, 0x01, 0x7f, 0x13, 0x01, 0x7f, 0x01, 0x7f,
    0x00, 0x7f, 0x02,
];

// Two change rows, the second of which depends on the first.
const METAS_METADATA: [u8; 15] = [
    0x07, 0x01, 0x02, 0x03, 0x02, 0x13, 0x02, 0x23, 0x02, 0x40, 0x03, 0x43, 0x02, 0x56, 0x02,
];

const METAS_BODY: [u8; 15] = [
    0x02, 0x00, 0x02, 0x01, 0x02, 0x01, 0x02, 0x00, 0x7e, 0x00, 0x01, 0x7f, 0x00, 0x02, 0x07,
];

fn rows_of<'a>(metadata: &'a [u8], body: &'a [u8]) -> Option<RowCursor<'a>> {
    let Ok((actors, _)) = ActorList::read(&ACTORS) else {
        return None;
    };
    let Ok((list, _)) = ColumnList::read(metadata) else {
        return None;
    };
    match Columns::over(list, body, &ROW_SPECS) {
        Ok(columns) => RowCursor::over(columns, actors).ok(),
        Err(_) => None,
    }
}

fn metas_of<'a>(metadata: &'a [u8], body: &'a [u8]) -> Option<MetaCursor<'a>> {
    let Ok((actors, _)) = ActorList::read(&ACTORS) else {
        return None;
    };
    let Ok((list, _)) = ColumnList::read(metadata) else {
        return None;
    };
    match Columns::over(list, body, &META_SPECS) {
        Ok(columns) => MetaCursor::over(columns, actors).ok(),
        Err(_) => None,
    }
}

// The first row.
fn first<'a>(mut rows: RowCursor<'a>) -> Option<RowRef<'a>> {
    rows.next()
}

fn has_row(rows: &mut RowCursor<'_>) -> bool {
    rows.next().is_some()
}

fn has_meta(metas: &mut MetaCursor<'_>) -> bool {
    metas.next().is_some()
}

fn are_rows(metadata: &[u8], body: &[u8]) -> bool {
    rows_of(metadata, body).is_some()
}

fn are_metas(metadata: &[u8], body: &[u8]) -> bool {
    metas_of(metadata, body).is_some()
}

fn names_a(rt: &impl Abort, row: &RowRef<'_>) {
    assert!(rt; matches!(row.obj, ObjRef::Root));
    assert!(rt; matches!(row.key, KeyRef::Name("a")));
    assert!(rt; row.id.counter == 1);
    assert!(rt; row.id.actor == &[0xaa][..]);
    assert!(rt; row.action == 1);
}

fn sets_a(rt: &impl Abort, row: &RowRef<'_>) {
    names_a(rt, row);
    assert!(rt; row.value.kind == 3);
    assert!(rt; row.value.raw == &[0x01][..]);
    assert!(rt; !row.insert);
    assert!(rt; !row.expand);
    assert!(rt; row.mark.is_none());
}

fn is_one_succ(rt: &impl Abort, succs: &mut SuccCursor<'_>) {
    let Some(succ) = succs.next() else {
        panic!(rt; "a successor");
    };
    assert!(rt; succ.counter == 2);
    assert!(rt; succ.actor == &[0xaa][..]);
    assert!(rt; succs.next().is_none());
}

fn tells_the_set_key(rt: &impl Abort, rows: &RowCursor<'_>) {
    let Some(mut row) = first(rows.again()) else {
        panic!(rt; "a row");
    };
    sets_a(rt, &row);
    is_one_succ(rt, &mut row.succs);
}

fn is_one_row(rt: &impl Abort, rows: &mut RowCursor<'_>) {
    assert!(rt; has_row(rows));
    assert!(rt; !has_row(rows));
}

#[test]
fn reads_a_set_key_that_was_deleted(rt: HostRuntime) {
    assert!(rt; !are_rows(&ROWS_METADATA, &ROWS_BODY[..18]));
    assert!(rt; SuccCursor::none().next().is_none());
    let Some(mut rows) = rows_of(&ROWS_METADATA, &ROWS_BODY) else {
        panic!(rt; "one row");
    };
    tells_the_set_key(&rt, &rows);
    is_one_row(&rt, &mut rows);
}

fn is_blank(rt: &impl Abort, row: &RowRef<'_>) {
    assert!(rt; row.id.counter == 0);
    assert!(rt; row.succs.again().next().is_none());
}

fn reads_into<'a>(rt: &impl Abort, rows: &mut RowCursor<'a>, row: &mut RowRef<'a>) {
    is_blank(rt, row);
    assert!(rt; rows.next_into(row));
    names_a(rt, row);
    is_one_succ(rt, &mut row.succs);
    assert!(rt; !rows.next_into(row));
    assert!(rt; row.id.counter == 1);
}

// The row that was there is kept behind the last, but for its successors, which were read.
#[test]
fn reads_a_row_into_one_that_is_there(rt: HostRuntime) {
    let Some(mut rows) = rows_of(&ROWS_METADATA, &ROWS_BODY) else {
        panic!(rt; "one row");
    };
    reads_into(&rt, &mut rows, &mut RowRef::blank());
}

// How many rows are left out before one names the counter 1.
fn unnamed_by_1(rows: &RowCursor<'_>) -> u64 {
    rows.again().skip_unnamed(&[1])
}

fn leaves_out(rt: &impl Abort, rows: &mut RowCursor<'_>) {
    assert!(rt; unnamed_by_1(rows) == 0);
    assert!(rt; rows.skip_unnamed(&[2]) == 1);
    assert!(rt; !has_row(rows));
}

#[test]
fn leaves_out_what_nobody_names(rt: HostRuntime) {
    let Some(mut rows) = rows_of(&ROWS_METADATA, &ROWS_BODY) else {
        panic!(rt; "one row");
    };
    leaves_out(&rt, &mut rows);
}

// Whether a row has neither value nor successors.
fn has_nothing(row: &RowRef<'_>) -> bool {
    row.value.kind == 0 && row.value.raw.is_empty() && row.succs.again().next().is_none()
}

fn has_bare_row(rows: RowCursor<'_>) -> bool {
    match first(rows) {
        Some(row) => has_nothing(&row),
        None => false,
    }
}

#[test]
fn reads_a_row_without_value_and_successors(rt: HostRuntime) {
    let metadata: [u8; 9] = [0x04, 0x15, 0x03, 0x21, 0x02, 0x23, 0x02, 0x42, 0x02];
    let body: [u8; 9] = [0x7f, 0x01, 0x61, 0x7f, 0x00, 0x7f, 0x01, 0x7f, 0x01];
    let Some(rows) = rows_of(&metadata, &body) else {
        panic!(rt; "one row");
    };
    assert!(rt; has_bare_row(rows), "a row");
}

// The first change row.
fn first_meta<'a>(mut metas: MetaCursor<'a>) -> Option<MetaRef<'a>> {
    metas.next()
}

fn is_the_first(rt: &impl Abort, first: &MetaRef<'_>) {
    assert!(rt; first.actor == &[0xaa][..]);
    assert!(rt; first.seq == 1);
    assert!(rt; first.max == 1);
    assert!(rt; first.time == 0);
    assert!(rt; first.message.is_empty());
    assert!(rt; first.extra.is_empty());
    assert!(rt; first.deps.again().next().is_none());
}

fn is_the_second(rt: &impl Abort, second: &MetaRef<'_>) {
    assert!(rt; second.seq == 2);
    assert!(rt; second.max == 2);
}

fn are_of_the_second(rt: &impl Abort, deps: &mut IndexCursor<'_>) {
    assert!(rt; deps.again().next() == Some(0));
    assert!(rt; deps.next().is_some());
    assert!(rt; deps.next().is_none());
}

fn tells_the_first_meta(rt: &impl Abort, metas: &MetaCursor<'_>) {
    let Some(first) = first_meta(metas.again()) else {
        panic!(rt; "a change row");
    };
    is_the_first(rt, &first);
}

fn tells_the_second_meta(rt: &impl Abort, metas: &mut MetaCursor<'_>) {
    let Some(mut second) = metas.next() else {
        panic!(rt; "a second change row");
    };
    is_the_second(rt, &second);
    are_of_the_second(rt, &mut second.deps);
}

fn are_two_metas(rt: &impl Abort, metas: &mut MetaCursor<'_>) {
    tells_the_first_meta(rt, metas);
    assert!(rt; has_meta(metas));
    tells_the_second_meta(rt, metas);
    assert!(rt; !has_meta(metas));
}

#[test]
fn reads_two_change_rows(rt: HostRuntime) {
    let Some(mut metas) = metas_of(&METAS_METADATA, &METAS_BODY) else {
        panic!(rt; "two change rows");
    };
    are_two_metas(&rt, &mut metas);
}

// Times, messages, dependencies and extra bytes may all be left out.
const ALONE: &[u8] = &[0x03, 0x01, 0x02, 0x03, 0x02, 0x13, 0x02];

const WITH_EXTRA: &[u8] = &[0x04, 0x01, 0x02, 0x03, 0x02, 0x13, 0x02, 0x56, 0x02];

const WITH_DEPS: &[u8] = &[
    0x05, 0x01, 0x02, 0x03, 0x02, 0x13, 0x02, 0x40, 0x02, 0x43, 0x02,
];

// The columns, their bytes, and what is wrong with them.
const NO_ROWS: &[(&[u8], &[u8], Option<&str>)] = &[
    (ALONE, b"\x7f\x00\x7f\x01\x7f\x00", None),
    (ALONE, b"\x7f\x01\x7f\x01\x7f\x00", Some("no such actor")),
    (ALONE, b"\x7f\x00\x7f\x00\x7f\x00", Some("a number of 0")),
    (ALONE, b"\x7f\x00\x00\x01\x7f\x00", Some("a null")),
    (WITH_EXTRA, b"\x7f\x00\x7f\x01\x7f\x00\x7f\x00", None),
    (
        WITH_EXTRA,
        b"\x7f\x00\x7f\x01\x7f\x00\x7f\x01",
        Some("extra bytes of kind 1"),
    ),
    (WITH_DEPS, b"\x7f\x00\x7f\x01\x7f\x00\x7f\x01\x7f\x00", None),
    (
        WITH_DEPS,
        b"\x7f\x00\x7f\x01\x7f\x00\x7f\x01\x7f\x01",
        Some("a dependency that is no change row"),
    ),
];

#[test]
fn refuses_what_is_no_change_row(rt: HostRuntime) {
    for &(metadata, body, wrong) in NO_ROWS {
        assert_eq!(rt;
            are_metas(metadata, body),
            wrong.is_none(),
            "{wrong:?} at {body:?}"
        );
    }
}
