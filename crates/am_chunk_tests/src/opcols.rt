//! Outside values: the operations of whole changes, read from their columns and written back.
use am_colmeta::{ActorList, ColumnList, Columns};
use am_opcols::{OpCursor, OpRef, PredCursor};
use am_types::{KeyRef, ObjRef};
use std::process::Abort;

const KNOWN: [u64; 14] = [1, 2, 17, 19, 21, 52, 66, 86, 87, 112, 113, 115, 148, 165];

// The metadata and the columns of a change that sets the name `a` to 2 over an operation of the same actor.
const METADATA: [u8; 17] = [
    0x08, 0x15, 0x03, 0x34, 0x01, 0x42, 0x02, 0x56, 0x02, 0x57, 0x01, 0x70, 0x02, 0x71, 0x02, 0x73,
    0x02,
];

const BODY: [u8; 15] = [
    0x7f, 0x01, 0x61, 0x01, 0x7f, 0x01, 0x7f, 0x13, 0x02, 0x7f, 0x01, 0x7f, 0x00, 0x7f, 0x01,
];

fn cursor<'a>(metadata: &'a [u8], body: &'a [u8], others: &'a [u8]) -> Option<OpCursor<'a>> {
    let Ok((list, _)) = ColumnList::read(metadata) else {
        return None;
    };
    let Ok(columns) = Columns::over(list, body, &KNOWN) else {
        return None;
    };
    let Ok((others, _)) = ActorList::read(others) else {
        return None;
    };
    match OpCursor::over(columns, &[0xaa], others) {
        Ok(ops) => Some(ops),
        Err(_) => None,
    }
}

fn has_op(ops: &mut OpCursor<'_>) -> bool {
    ops.next().is_some()
}

// The first operation.
fn first<'a>(mut ops: OpCursor<'a>) -> Option<OpRef<'a>> {
    ops.next()
}

fn sets_a(rt: &impl Abort, op: &OpRef<'_>) {
    assert!(rt; matches!(op.obj, ObjRef::Root));
    assert!(rt; matches!(op.key, KeyRef::Name("a")));
    assert!(rt; !op.insert);
    assert!(rt; !op.expand);
    assert!(rt; op.action == 1);
    assert!(rt; op.mark.is_none());
    assert!(rt; op.value.kind == 3);
    assert!(rt; op.value.raw == &[0x02][..]);
}

fn is_one_pred(rt: &impl Abort, preds: &mut PredCursor<'_>) {
    let Some(pred) = preds.next() else {
        panic!(rt; "one predecessor is there");
    };
    assert!(rt; pred.counter == 1);
    assert!(rt; pred.actor == &[0xaa][..]);
    assert!(rt; preds.next().is_none());
}

fn tells_the_first(rt: &impl Abort, ops: &OpCursor<'_>) {
    let Some(mut op) = first(ops.again()) else {
        panic!(rt; "one operation is there");
    };
    sets_a(rt, &op);
    is_one_pred(rt, &mut op.preds);
}

fn is_one(rt: &impl Abort, ops: &mut OpCursor<'_>) {
    assert!(rt; has_op(ops));
    assert!(rt; !has_op(ops));
}

#[test]
fn reads_an_operation(rt: HostRuntime) {
    let Some(mut ops) = cursor(&METADATA, &BODY, &[0x00]) else {
        panic!(rt; "one operation is spelled");
    };
    tells_the_first(&rt, &ops);
    is_one(&rt, &mut ops);
}

// The metadata and the columns of a change that sets the name `a` to 2 over two operations of the same actor, and then the
// name `b` to 3 over none.
const METADATA_OF_TWO: [u8; 17] = [
    0x08, 0x15, 0x05, 0x34, 0x01, 0x42, 0x02, 0x56, 0x02, 0x57, 0x02, 0x70, 0x03, 0x71, 0x02, 0x73,
    0x02,
];

const BODY_OF_TWO: [u8; 19] = [
    0x7e, 0x01, 0x61, 0x01, 0x62, 0x02, 0x02, 0x01, 0x02, 0x13, 0x02, 0x03, 0x7e, 0x02, 0x00, 0x02,
    0x00, 0x02, 0x01,
];

// Of the next operation the first byte of its value, and the counter of the first of its predecessors, which are read into
// a cursor that is there.
type Told = Option<(Option<u8>, Option<u64>)>;

fn told_into<'a>(ops: &mut OpCursor<'a>, preds: &mut PredCursor<'a>) -> Told {
    let head = ops.next_into(preds)?;
    let pred = match preds.next() {
        Some(pred) => Some(pred.counter),
        None => None,
    };
    Some((head.value.raw.first().copied(), pred))
}

// What three readings into one cursor tell.
fn three_told(mut ops: OpCursor<'_>) -> (Told, Told, Told) {
    let mut preds = PredCursor::none();
    (
        told_into(&mut ops, &mut preds),
        told_into(&mut ops, &mut preds),
        told_into(&mut ops, &mut preds),
    )
}

fn told() -> Option<(Told, Told, Told)> {
    let ops = cursor(&METADATA_OF_TWO, &BODY_OF_TWO, &[0x00])?;
    Some(three_told(ops))
}

// One of the two predecessors is still unread when the second operation is read.
#[test]
fn reads_predecessors_into_one_cursor(rt: HostRuntime) {
    let told = told();
    assert!(rt; told == Some((Some((Some(2), Some(1))), Some((Some(3), None)), None)));
}

// Whether an operation can be read from the body.
fn is_read(body: &[u8]) -> bool {
    cursor(&METADATA, body, &[0x00]).is_some()
}

// A byte of the body, what stands in its place, and what is wrong with that.
const BAD: &[(usize, u8, &str)] = &[
    (5, 0x08, "an action above 7"),
    (12, 0x01, "an actor that isn't listed"),
    (14, 0x00, "a counter of 0"),
    (10, 0x02, "a length without ids"),
];

#[test]
fn refuses_columns(rt: HostRuntime) {
    for &(place, byte, why) in BAD {
        let mut bad = BODY;
        if let Some(at) = bad.get_mut(place) {
            *at = byte;
        }
        assert!(rt; !is_read(&bad), "{why}");
    }
}
