//! For tests: histories that other programs were given too.
use am_types::{ActorId, Bytes, Change, Key, List, ObjId, Op, OpId, RawValue, Text};
use std::alloc::{AllocError, Global};

/// An operation: the counter of its object or 0 for the root; a name, or none and then the counter of an element or 0 for
/// the front; its action, the kind and the bytes of its value; the counter of a predecessor, or 0. It is an insertion where
/// it has neither a name nor a predecessor. All that it names was made by the author of the first change.
pub type Spec = (u64, &'static str, u64, u8, u8, &'static [u8], u64);

/// A change: who made it, where its counters start, and its operations.
pub type Sample = (&'static [u8], u64, &'static [Spec]);

const AA: &[u8] = &[0xaa];

/// A text, and a letter that each of two others put into it.
pub const TEXTS: &[Sample] = &[
    (
        AA,
        1,
        &[
            (0, "t", 0, 4, 0, b"", 0),
            (1, "", 0, 1, 6, b"a", 0),
            (1, "", 2, 1, 6, b"b", 0),
        ],
    ),
    (&[0xbb], 4, &[(1, "", 2, 1, 6, b"x", 0)]),
    (&[0xcc], 4, &[(1, "", 2, 1, 6, b"y", 0)]),
];

/// A counter, two increments, its deletion; then the greatest counter, and an increment of that.
pub const COUNTERS: &[Sample] = &[
    (AA, 1, &[(0, "n", 0, 1, 8, &[0x0a], 0)]),
    (&[0xbb], 2, &[(0, "n", 0, 5, 4, &[0x05], 1)]),
    (&[0xcc], 2, &[(0, "n", 0, 5, 4, &[0x7d], 1)]),
    (AA, 3, &[(0, "n", 0, 3, 0, b"", 1)]),
    (
        AA,
        1,
        &[(
            0,
            "n",
            0,
            1,
            8,
            &[0xff, 0xff, 0xff, 0xff, 0xff, 0xff, 0xff, 0xff, 0xff, 0],
            0,
        )],
    ),
    (&[0xbb], 2, &[(0, "n", 0, 5, 4, &[0x05], 1)]),
];

/// Two values that were set at the same time; then an overwrite of the first, and its deletion.
pub const VALUES: &[Sample] = &[
    (AA, 1, &[(0, "a", 0, 1, 3, &[1], 0)]),
    (&[0xbb], 1, &[(0, "a", 0, 1, 3, &[2], 0)]),
    (AA, 2, &[(0, "a", 0, 1, 3, &[2], 1)]),
    (AA, 2, &[(0, "a", 0, 3, 0, b"", 1)]),
];

/// Each action.
pub const ACTIONS: &[Sample] = &[(
    AA,
    1,
    &[
        (0, "m", 0, 0, 0, b"", 0),
        (0, "l", 0, 2, 0, b"", 0),
        (0, "t", 0, 4, 0, b"", 0),
        (1, "q", 0, 6, 0, b"", 0),
        (4, "n", 0, 1, 8, &[10], 0),
        (4, "n", 0, 5, 4, &[5], 5),
        (2, "", 0, 1, 6, b"a", 0),
        (2, "", 7, 0, 0, b"", 0),
        (2, "", 7, 3, 0, b"", 7),
        (2, "", 8, 1, 3, &[2], 8),
        (3, "", 0, 7, 2, b"", 0),
        (3, "", 11, 1, 6, b"b", 0),
        (3, "", 12, 7, 0, b"", 0),
    ],
)];

fn id(alloc: Global, by: &[u8], counter: u64) -> Result<OpId, AllocError> {
    match ActorId::of(alloc, by) {
        Ok(actor) => Ok(OpId { counter, actor }),
        Err(_) => Err(AllocError),
    }
}

fn object(alloc: Global, by: &[u8], counter: u64) -> Result<ObjId, AllocError> {
    if counter == 0 {
        return Ok(ObjId::Root);
    }
    Ok(ObjId::Made(id(alloc, by, counter)?))
}

fn text(alloc: Global, spelled: &str) -> Result<Text, AllocError> {
    let mut text = Text::new(alloc);
    text.push_str(spelled)?;
    Ok(text)
}

fn key(alloc: Global, by: &[u8], name: &str, counter: u64) -> Result<Key, AllocError> {
    if !name.is_empty() {
        Ok(Key::Name(text(alloc, name)?))
    } else if counter == 0 {
        Ok(Key::Head)
    } else {
        Ok(Key::Elem(id(alloc, by, counter)?))
    }
}

fn preds(alloc: Global, by: &[u8], counter: u64) -> Result<List<OpId>, AllocError> {
    let mut preds = List::new(alloc);
    if counter > 0 {
        preds.push(id(alloc, by, counter)?)?;
    }
    Ok(preds)
}

fn value(alloc: Global, kind: u8, bytes: &[u8]) -> Result<RawValue, AllocError> {
    let mut raw = Bytes::new(alloc);
    raw.push_slice(bytes)?;
    Ok(RawValue { kind, raw })
}

/// Whether a span of marked text begins: it is named `bold`, and takes in what is typed at its end.
pub fn begins_mark(action: u8, kind: u8) -> bool {
    action == 7 && kind == 2
}

fn mark(alloc: Global, begins: bool) -> Result<Option<Text>, AllocError> {
    if !begins {
        return Ok(None);
    }
    Ok(Some(text(alloc, "bold")?))
}

fn op(alloc: Global, by: &[u8], spec: &Spec) -> Result<Op, AllocError> {
    let (made, name, counter, action, kind, bytes, named) = *spec;
    let obj = object(alloc, by, made)?;
    let key = key(alloc, by, name, counter)?;
    let value = value(alloc, kind, bytes)?;
    let preds = preds(alloc, by, named)?;
    let begins = begins_mark(action, kind);
    let mark = mark(alloc, begins)?;
    Ok(Op {
        obj,
        key,
        insert: name.is_empty() && named == 0,
        action,
        value,
        preds,
        expand: begins,
        mark,
    })
}

fn push_ops(
    alloc: Global,
    by: &[u8],
    ops: &mut List<Op>,
    specs: &[Spec],
) -> Result<(), AllocError> {
    for spec in specs {
        ops.push(op(alloc, by, spec)?)?;
    }
    Ok(())
}

fn change(
    alloc: Global,
    by: &[u8],
    seq: u64,
    start: u64,
    ops: List<Op>,
) -> Result<Change, AllocError> {
    let id = id(alloc, by, start)?;
    Ok(Change {
        deps: List::new(alloc),
        actor: id.actor,
        seq,
        start,
        time: 0,
        message: Text::new(alloc),
        ops,
        extra: Bytes::new(alloc),
    })
}

// The change of a sample, beside the author of the first one, who made no more than one before.
fn change_of(alloc: Global, first: &[u8], sample: &Sample) -> Result<Change, AllocError> {
    let (by, start, specs) = *sample;
    let mut ops = List::new(alloc);
    push_ops(alloc, first, &mut ops, specs)?;
    let seq = if start > 1 && by == first { 2 } else { 1 };
    change(alloc, by, seq, start, ops)
}

/// The change that has this number among the samples, without its dependencies. What is named in them was made by the
/// actor aa, and those on which others depend come first.
pub fn change_at(
    alloc: Global,
    samples: &[Sample],
    number: usize,
) -> Result<Option<Change>, AllocError> {
    match samples.get(number) {
        Some(sample) => Ok(Some(change_of(alloc, AA, sample)?)),
        None => Ok(None),
    }
}
