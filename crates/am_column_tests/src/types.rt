//! Each call once: what is built, lent, compared and copied is what was put in.
use am_types::{
    ActorFault, ActorId, Bytes, Document, Entry, EntryRef, Hash, IdRef, Key, KeyRef, List, Meta,
    ObjId, ObjRef, OpId, RawValue, Row, Table, Text, Twin, compare_bytes, compare_ids, same_bytes,
};
use std::alloc::{AllocError, Global};
use std::cmp::Ordering;
use std::process::Abort;
use std::test::Fail;

fn id(alloc: Global, counter: u64, actor: &[u8]) -> Result<OpId, ActorFault> {
    let actor = ActorId::of(alloc, actor)?;
    Ok(OpId { counter, actor })
}

// A list of one item.
fn one<T: Drop>(alloc: Global, item: T) -> Result<List<T>, AllocError> {
    let mut list = List::new(alloc);
    list.push(item)?;
    Ok(list)
}

fn row(alloc: Global) -> Result<Row, ActorFault> {
    let obj = ObjId::Made(id(alloc, 1, &[0xaa])?);
    let key = Key::Elem(id(alloc, 2, &[0xaa])?);
    let succs = one(alloc, id(alloc, 4, &[0xbb])?)?;
    let id = id(alloc, 3, &[0xaa])?;
    let raw = Bytes::copy_of(alloc, b"x")?;
    let mark = Some(Text::copy_of(alloc, "bold")?);
    Ok(Row {
        obj,
        key,
        id,
        insert: true,
        action: 1,
        value: RawValue { kind: 6, raw },
        succs,
        expand: false,
        mark,
    })
}

fn meta(alloc: Global) -> Result<Meta, ActorFault> {
    let actor = ActorId::of(alloc, &[0xaa])?;
    let message = Text::copy_of(alloc, "first")?;
    let deps = one(alloc, 0)?;
    let extra = Bytes::copy_of(alloc, &[1, 2])?;
    Ok(Meta {
        actor,
        seq: 1,
        max: 4,
        time: -5,
        message,
        deps,
        extra,
    })
}

fn table(alloc: Global) -> Result<Table, ActorFault> {
    let actors = one(alloc, ActorId::of(alloc, &[0xaa])?)?;
    let heads = one(alloc, Hash([7; 32]))?;
    let metas = one(alloc, meta(alloc)?)?;
    let rows = one(alloc, row(alloc)?)?;
    let suffix = Some(one(alloc, 0)?);
    Ok(Table {
        actors,
        heads,
        metas,
        rows,
        suffix,
    })
}

fn document(alloc: Global) -> Result<Document, ActorFault> {
    let obj = ObjId::Made(id(alloc, 1, &[0xaa])?);
    let slot = Key::Elem(id(alloc, 2, &[0xaa])?);
    let id = id(alloc, 3, &[0xaa])?;
    let raw = Bytes::copy_of(alloc, &[10])?;
    let entry = Entry {
        obj,
        slot,
        id,
        action: 1,
        value: RawValue { kind: 8, raw },
        total: 10,
    };
    Ok(Document {
        entries: one(alloc, entry)?,
    })
}

// How many bytes there are, and whether they are an actor.
const LENGTHS: &[(usize, bool)] = &[(0, false), (1, true), (1024, true), (1025, false)];

#[test]
fn actors_have_1_to_1024_bytes(rt: HostRuntime) -> Result<(), Fail> {
    let most = [0x11; 1025];
    for &(len, good) in LENGTHS {
        match ActorId::of(rt.alloc(), &most[..len]) {
            Ok(actor) => assert!(rt; good && actor.as_slice() == &most[..len], "at {len}"),
            Err(fault) => assert!(rt; !good && fault == ActorFault::Length, "at {len}"),
        }
    }
    Ok(())
}

// Two ids, and how the first stands to the second.
const IDS: &[(u64, &[u8], u64, &[u8], Ordering)] = &[
    (1, b"b", 2, b"a", Ordering::Less),
    (2, b"b", 2, b"a", Ordering::Greater),
    (2, b"a", 2, b"ab", Ordering::Less),
    (2, b"a", 2, b"a", Ordering::Equal),
];

// Bytes, and how the first stand to the second.
const BYTES: &[(&[u8], &[u8], Ordering)] = &[
    (b"", b"", Ordering::Equal),
    (b"a", b"ab", Ordering::Less),
    (b"b", b"ab", Ordering::Greater),
    (b"just as an actor", b"just as an actor", Ordering::Equal),
    (b"just as an actor", b"just as an actos", Ordering::Less),
    (
        b"these are more than thirty-two bytes",
        b"these are more than thirty-two bytes",
        Ordering::Equal,
    ),
    (
        b"these are more than thirty-two bytes",
        b"these are more than thirty-two byte",
        Ordering::Greater,
    ),
    (
        b"these are more than thirty-two bytes: a",
        b"these are more than thirty-two bytes: b",
        Ordering::Less,
    ),
];

// Ids go by counter, then actor; bytes by the first that differs.
#[test]
fn compares(rt: HostRuntime) {
    for &(counter, actor, other_counter, other_actor, order) in IDS {
        let a = IdRef { counter, actor };
        let b = IdRef {
            counter: other_counter,
            actor: other_actor,
        };
        assert_eq!(rt; compare_ids(a, b), order);
    }
    for &(a, b, order) in BYTES {
        assert_eq!(rt; compare_bytes(a, b), order);
        assert_eq!(rt; same_bytes(a, b), order.is_eq());
    }
}

#[test]
fn takes_over_what_is_owned(rt: HostRuntime) -> Result<(), Fail> {
    let alloc = rt.alloc();
    let numbers = List::from(vec![in alloc; 1u64, 2, 3]?);
    assert!(rt; numbers.len() == 3);
    let three = Bytes::from(vec![in alloc; 1u8, 2, 3]?);
    assert!(rt; three.len() == 3);
    assert!(rt; three == Bytes::copy_of(alloc, &[1, 2, 3])?);
    let mut word = Text::from(format!(in alloc; "{}", "wo")?);
    word.push_str("rd")?;
    assert!(rt; word.len() == 4);
    assert!(rt; word == Text::copy_of(alloc, "word")?);
    assert!(rt; format!(in alloc; "{:?}", word)?.as_str() == "Text { text: \"word\" }");
    Ok(())
}

#[test]
fn more_bytes_than_lie_inside(rt: HostRuntime) -> Result<(), Fail> {
    let alloc = rt.alloc();
    let seventeen: [u8; 17] = [1, 2, 3, 4, 5, 6, 7, 8, 9, 10, 11, 12, 13, 14, 15, 16, 17];
    let mut grown = Bytes::copy_of(alloc, &seventeen[..16])?;
    assert!(rt; grown.as_slice() == &seventeen[..16]);
    grown.push_slice(&seventeen[16..])?;
    assert!(rt; grown.as_slice() == &seventeen[..]);
    assert!(rt; Bytes::copy_of(alloc, &seventeen)?.as_slice() == &seventeen[..]);
    Ok(())
}

fn is_copied<T: Twin + PartialEq + Drop>(alloc: Global, item: &T) -> Result<bool, AllocError> {
    Ok(item.copy(alloc)? == *item)
}

fn table_is_copied(alloc: Global) -> Result<bool, ActorFault> {
    let table = table(alloc)?;
    Ok(is_copied(alloc, &table)?)
}

fn document_is_copied(alloc: Global) -> Result<bool, ActorFault> {
    let document = document(alloc)?;
    Ok(is_copied(alloc, &document)?)
}

#[test]
fn copies_equal_what_they_copy(rt: HostRuntime) -> Result<(), Fail> {
    assert!(rt; table_is_copied(rt.alloc())?);
    assert!(rt; document_is_copied(rt.alloc())?);
    Ok(())
}

fn is_the_entry(rt: &impl Abort, entry: &EntryRef<'_>) {
    match (entry.obj, entry.slot) {
        (ObjRef::Made(obj), KeyRef::Elem(slot)) => {
            assert!(rt; obj.counter == 1);
            assert!(rt; obj.actor == b"\xaa".as_slice());
            assert!(rt; slot.counter == 2);
        }
        _ => assert!(rt; false, "another place"),
    }
    assert!(rt; entry.id.counter == 3);
    assert!(rt; (entry.action, entry.value.kind, entry.total) == (1, 8, 10));
    assert!(rt; entry.value.raw == b"\x0a".as_slice());
}

fn lends_its_entries(rt: &impl Abort, document: &Document) {
    assert!(rt; document.entries.len() == 1);
    for i in 0..document.entries.len() {
        is_the_entry(rt, &document.entry(i));
    }
}

#[test]
fn lends_what_it_has(rt: HostRuntime) -> Result<(), Fail> {
    let document = document(rt.alloc())?;
    lends_its_entries(&rt, &document);
    Ok(())
}
