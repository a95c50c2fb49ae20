//! Outside values: the columns of the change that makes the text `ab`, part by part, and what each part refuses.
use am_colmeta::ActorList;
use am_fields::{
    ActionColumn, Actors, CountedObjects, DeltaColumn, FlagColumn, GREATEST_COUNTER, GroupColumns,
    IdColumns, IdCursor, KeyColumns, NumberColumn, NumberWriter, ObjectColumns, TextColumn,
    TextWriter, ValueColumns,
};
use am_flags::FlagWriter;
use am_types::{KeyRef, ObjRef};
use std::alloc::AllocError;
use std::process::Abort;

const ACTOR: [u8; 1] = [0xaa];

// The actors of a change: its author, and those of a list.
fn actors_of<'a>(rt: &impl Abort, others: &'a [u8]) -> Actors<'a> {
    let (others, _) = ActorList::read(others).expect(rt, "a list of actors");
    Actors::of_change(&ACTOR, others)
}

#[test]
fn reads_numbers_and_deltas(rt: HostRuntime) {
    let mut numbers = NumberColumn::over(&[0x02, 0x07], 2).expect(&rt, "two numbers");
    assert!(rt; numbers.next() == Some(7));
    assert!(rt; numbers.again().left() == 1);
    assert!(rt; NumberColumn::over(&[0x02, 0x07], 3).is_err());
    let mut nulls = NumberColumn::over(&[], 3).expect(&rt, "a column may be left out");
    nulls.skip(2);
    assert!(rt; nulls.next().is_none());
    let mut deltas = DeltaColumn::over(&[0x02, 0x01], 2, 0, GREATEST_COUNTER).expect(
        &rt,
        "two deltas",
    );
    deltas.skip(1);
    assert!(rt; deltas.next() == Some(2));
    assert!(rt; DeltaColumn::over(&[0x7f, 0x7f], 1, 0, GREATEST_COUNTER).is_err());
}

#[test]
fn reads_texts_flags_and_actions(rt: HostRuntime) {
    let mut texts = TextColumn::over(&[0x7f, 0x01, 0x61], 1).expect(&rt, "a text");
    assert!(rt; texts.again().left() == 1);
    assert!(rt; texts.next() == Some("a"));
    let mut flags = FlagColumn::over(&[0x01, 0x01], 2).expect(&rt, "two flags");
    assert!(rt; !flags.next());
    assert!(rt; flags.next());
    assert!(rt; FlagColumn::over(&[0x00], 1).is_err());
    let mut actions = ActionColumn::over(&[0x7f, 0x04, 0x02, 0x01]).expect(&rt, "three actions");
    assert!(rt; actions.again().left() == 3);
    assert!(rt; actions.next() == 4);
    assert!(rt; ActionColumn::over(&[0x7f, 0x08]).is_err());
}

#[test]
fn reads_objects(rt: HostRuntime) {
    let (others, _) = ActorList::read(&[0x00]).expect(&rt, "no actors");
    let actors = Actors::of_change(&ACTOR, others.again());
    let places: [u8; 4] = [0x00, 0x01, 0x02, 0x00];
    let counters: [u8; 4] = [0x00, 0x01, 0x02, 0x01];
    let mut objects = ObjectColumns::over(&places, &counters, &actors, 3).expect(
        &rt,
        "three objects",
    );
    assert!(rt; matches!(objects.next(), ObjRef::Root));
    let (like, count) = objects.like();
    assert!(rt; objects.left() == 2);
    assert!(rt; count <= 2);
    match like {
        ObjRef::Made(id) => assert!(rt; id.counter == 1),
        ObjRef::Root => assert!(rt; false, "an object that was made"),
    }
    match objects.again().next() {
        ObjRef::Made(id) => assert!(rt; id.counter == 1 && id.actor == &ACTOR[..]),
        ObjRef::Root => assert!(rt; false, "an object that was made"),
    }
    let bare = Actors::of_document(others);
    assert!(rt; ObjectColumns::over(&places, &counters, &bare.again(), 3).is_err());
}

// The objects of six rows: the root twice, one that the author made, one of another actor and of the same counter twice,
// and a later one of the author.
const OBJECT_ACTORS: [u8; 8] = [0x00, 0x02, 0x7f, 0x00, 0x02, 0x01, 0x7f, 0x00];

const OBJECT_COUNTERS: [u8; 6] = [0x00, 0x02, 0x03, 0x01, 0x7f, 0x02];

// The counter of its id and the first byte of the actor, or zeros for the root.
type Told = (u64, u8);

fn told(object: ObjRef<'_>) -> Told {
    match object {
        ObjRef::Root => (0, 0),
        ObjRef::Made(id) => match id.actor.first() {
            Some(byte) => (id.counter, *byte),
            None => (id.counter, 0),
        },
    }
}

#[test]
fn counts_objects(rt: HostRuntime) {
    let actors = actors_of(&rt, &[0x01, 0x01, 0xbb]);
    let mut objects = CountedObjects::over(&OBJECT_ACTORS, &OBJECT_COUNTERS, &actors, 6).expect(
        &rt,
        "six objects",
    );
    assert!(rt; told(objects.next()) == (0, 0));
    assert!(rt; told(objects.next()) == (0, 0));
    assert!(rt; told(objects.next()) == (1, 0xaa));
    assert!(rt; told(objects.next()) == (1, 0xbb));
    // The fifth was read with the fourth.
    let mut same = objects.again();
    assert!(rt; told(same.next()) == (1, 0xbb));
    assert!(rt; told(same.next()) == (2, 0xaa));
    assert!(rt; told(objects.next()) == (1, 0xbb));
    assert!(rt; told(objects.next()) == (2, 0xaa));
    assert!(rt; CountedObjects::over(&OBJECT_ACTORS, &OBJECT_COUNTERS, &actors, 5).is_err());
    assert!(rt; CountedObjects::over(&OBJECT_ACTORS, &OBJECT_COUNTERS, &actors, 7).is_err());
}

#[test]
fn reads_keys(rt: HostRuntime) {
    let actors = actors_of(&rt, &[0x00]);
    let places: [u8; 4] = [0x00, 0x02, 0x7f, 0x00];
    let counters: [u8; 5] = [0x00, 0x01, 0x7e, 0x00, 0x02];
    let names: [u8; 5] = [0x7f, 0x01, 0x74, 0x00, 0x02];
    let mut keys = KeyColumns::over(&places, &counters, &names, &actors, 3).expect(
        &rt,
        "three keys",
    );
    assert!(rt; matches!(keys.next(), KeyRef::Name("t")));
    assert!(rt; matches!(keys.next(), KeyRef::Head));
    assert!(rt; matches!(keys.again().next(), KeyRef::Elem(_)));
    assert!(rt; KeyColumns::over(&places, &[], &names, &actors, 3).is_err());
}

#[test]
fn reads_values(rt: HostRuntime) {
    let mut values = ValueColumns::over(&[0x7f, 0x00, 0x02, 0x16], &[0x61, 0x62], 3).expect(
        &rt,
        "three values",
    );
    assert!(rt; values.next().kind == 0);
    assert!(rt; values.again().next().raw == &[0x61][..]);
    let mut null = ValueColumns::over(&[0x00, 0x01], &[], 1).expect(&rt, "a null");
    assert!(rt; null.next().kind == 0);
    assert!(rt; ValueColumns::over(&[], &[], 3).is_ok());
    assert!(rt; ValueColumns::over(&[], &[0x61], 3).is_err());
}

#[test]
fn reads_values_that_are_given(rt: HostRuntime) {
    let numbers: [u8; 4] = [0x7f, 0x00, 0x02, 0x16];
    let values = ValueColumns::given(&numbers, &[0x61, 0x62], 3).expect(&rt, "three values");
    assert!(rt; values.left() == 3);
    assert!(rt; ValueColumns::given(&numbers, &[0x61, 0x62], 2).is_err());
    assert!(rt; ValueColumns::given(&numbers, &[0x61, 0x62], 4).is_err());
    assert!(rt; ValueColumns::given(&[0x00, 0x01], &[], 1).is_err());
    assert!(rt; ValueColumns::given(&[], &[], 1).is_err());
    let none = ValueColumns::given(&[], &[], 0).expect(&rt, "no values");
    assert!(rt; none.left() == 0);
}

#[test]
fn reads_ids(rt: HostRuntime) {
    let actors = actors_of(&rt, &[0x01, 0x01, 0xbb]);
    let mut ids = IdColumns::over(&[0x7e, 0x00, 0x01], &[0x02, 0x01], &actors, 2).expect(
        &rt, "two ids",
    );
    ids.skip(1);
    assert!(rt; ids.left() == 1);
    assert!(rt; ids.again().next().counter == 2);
    assert!(rt; ids.next().actor == &[0xbb][..]);
}

#[test]
fn reads_groups(rt: HostRuntime) {
    let actors = actors_of(&rt, &[0x01, 0x01, 0xbb]);
    let group: [u8; 3] = [0x7e, 0x00, 0x02];
    let mut groups = GroupColumns::over(
        &group,
        &[0x7e, 0x00, 0x01],
        &[0x02, 0x01],
        &actors,
        2,
    ).expect(&rt, "two groups");
    assert!(rt; groups.left() == 2);
    assert!(rt; groups.lengths().next() == 0);
    assert!(rt; groups.next().next().is_none());
    assert!(rt; groups.lengths().next() == 2);
    let mut last = groups.again().next();
    assert!(rt; last.again().next().is_some());
    assert!(rt; last.next().is_some());
    assert!(rt; last.next().is_some());
    assert!(rt; last.next().is_none());
    let mut cleared = groups.next();
    cleared.clear();
    assert!(rt; cleared.next().is_none());
}

#[test]
fn reads_groups_without_lengths(rt: HostRuntime) {
    let actors = actors_of(&rt, &[0x01, 0x01, 0xbb]);
    assert!(rt; GroupColumns::over(&[0x00, 0x01], &[], &[], &actors, 1).is_ok());
    assert!(rt; GroupColumns::over(&[], &[], &[], &actors, 1).is_ok());
    assert!(rt; IdCursor::none().next().is_none());
    let both = GroupColumns::given(
        &[0x7e, 0x00, 0x02],
        &[0x7e, 0x00, 0x01],
        &[0x02, 0x01],
        &actors,
        2,
    )
    .expect(&rt, "two groups");
    assert!(rt; both.left() == 2);
    assert!(rt; GroupColumns::given(&[0x00, 0x01], &[], &[], &actors, 1).is_err());
    assert!(rt; GroupColumns::given(&[], &[], &[], &actors, 1).is_err());
}

#[test]
fn writes_numbers_and_texts(rt: HostRuntime) -> Result<(), AllocError> {
    let mut numbers = NumberWriter::new(rt.alloc());
    numbers.push(Some(1))?;
    numbers.push(Some(1))?;
    numbers.push(None)?;
    assert!(rt; numbers.finish()?.as_slice() == &[0x02, 0x01, 0x00, 0x01][..]);
    let mut texts = TextWriter::new(rt.alloc());
    texts.push(Some("a"))?;
    assert!(rt; texts.finish()?.as_slice() == &[0x7f, 0x01, 0x61][..]);
    Ok(())
}

#[test]
fn takes_flags(rt: HostRuntime) -> Result<(), AllocError> {
    let mut from = FlagColumn::over(&[0x01, 0x02], 3).expect(&rt, "three flags");
    let mut flags = FlagWriter::new(rt.alloc());
    from.copy_to(&mut flags, 2)?;
    assert!(rt; from.left() == 1);
    assert!(rt; flags.finish_plain()?.as_slice() == &[0x01, 0x01][..]);
    Ok(())
}
