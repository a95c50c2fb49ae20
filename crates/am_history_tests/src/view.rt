//! Tests of am_view: two documents that another program wrote, read at several heads. One has a counter, two increments of it
//! at once and its deletion, a value that two others replaced at once, a letter and its deletion; the other has a text that
//! two people typed one after another. A function that has a graph of its own only lends it, since each of its ways out is
//! proved to drop it well.
use am_doc::DocRef;
use am_graph::{Clock, Graph};
use am_types::{ActorId, EntryRef, Hash};
use am_view::Shown;
use std::alloc::Global;
use std::process::Abort;
use std::test::Fail;

const DOCUMENT: &[u8] = &[
    0x03, 0x01, 0xaa, 0x01, 0xbb, 0x01, 0xcc, 0x02, 0x03, 0x03, 0x03, 0x03, 0x03, 0x03, 0x03, 0x03,
    0x03, 0x03, 0x03, 0x03, 0x03, 0x03, 0x03, 0x03, 0x03, 0x03, 0x03, 0x03, 0x03, 0x03, 0x03, 0x03,
    0x03, 0x03, 0x03, 0x03, 0x03, 0x03, 0x03, 0x03, 0x04, 0x04, 0x04, 0x04, 0x04, 0x04, 0x04, 0x04,
    0x04, 0x04, 0x04, 0x04, 0x04, 0x04, 0x04, 0x04, 0x04, 0x04, 0x04, 0x04, 0x04, 0x04, 0x04, 0x04,
    0x04, 0x04, 0x04, 0x04, 0x04, 0x04, 0x04, 0x04, 0x07, 0x01, 0x05, 0x03, 0x06, 0x13, 0x05, 0x23,
    0x02, 0x40, 0x04, 0x43, 0x04, 0x56, 0x02, 0x0d, 0x01, 0x04, 0x02, 0x04, 0x13, 0x04, 0x15, 0x0b,
    0x21, 0x0a, 0x23, 0x09, 0x34, 0x02, 0x42, 0x08, 0x56, 0x0a, 0x57, 0x07, 0x80, 0x01, 0x0a, 0x81,
    0x01, 0x07, 0x83, 0x01, 0x07, 0x7c, 0x00, 0x01, 0x02, 0x00, 0x7f, 0x01, 0x02, 0x00, 0x7f, 0x01,
    0x7c, 0x04, 0x02, 0x00, 0x02, 0x04, 0x00, 0x7f, 0x00, 0x03, 0x01, 0x02, 0x00, 0x7f, 0x01, 0x04,
    0x07, 0x00, 0x07, 0x7f, 0x00, 0x00, 0x07, 0x7f, 0x03, 0x00, 0x07, 0x7f, 0x00, 0x03, 0x01, 0x6e,
    0x7f, 0x01, 0x74, 0x03, 0x01, 0x78, 0x00, 0x01, 0x7d, 0x00, 0x01, 0x02, 0x02, 0x00, 0x7d, 0x01,
    0x02, 0x00, 0x78, 0x01, 0x04, 0x00, 0x7e, 0x7f, 0x04, 0x00, 0x7e, 0x07, 0x01, 0x7f, 0x01, 0x02,
    0x05, 0x7f, 0x04, 0x04, 0x01, 0x7f, 0x18, 0x02, 0x14, 0x7f, 0x00, 0x03, 0x13, 0x7f, 0x16, 0x0a,
    0x05, 0x7d, 0x01, 0x02, 0x03, 0x61, 0x7f, 0x03, 0x03, 0x00, 0x7f, 0x02, 0x02, 0x00, 0x7f, 0x01,
    0x7a, 0x01, 0x02, 0x00, 0x01, 0x02, 0x00, 0x7a, 0x05, 0x00, 0x02, 0x7f, 0x00, 0x02, 0x02, 0x03,
];

// The byte that its hash repeats, the byte of its actor, its seq, its start, how many operations it has, and the byte of the
// hash of its dependency, or 0.
type Sample = (u8, u8, u16, u16, u16, u8);

// The changes of which the document tells.
const CHANGES: &[Sample] = &[
    (1, 0xaa, 1, 1, 4, 0),
    (2, 0xbb, 1, 5, 2, 1),
    (3, 0xcc, 1, 5, 2, 1),
    (4, 0xaa, 2, 7, 2, 2),
];

// The first actor typed a word, and the second one two signs behind it.
const TYPED: &[u8] = &[
    0x02, 0x01, 0xaa, 0x01, 0xbb, 0x01, 0x02, 0x02, 0x02, 0x02, 0x02, 0x02, 0x02, 0x02, 0x02, 0x02,
    0x02, 0x02, 0x02, 0x02, 0x02, 0x02, 0x02, 0x02, 0x02, 0x02, 0x02, 0x02, 0x02, 0x02, 0x02, 0x02,
    0x02, 0x02, 0x02, 0x02, 0x02, 0x02, 0x07, 0x01, 0x03, 0x03, 0x03, 0x13, 0x03, 0x23, 0x02, 0x40,
    0x03, 0x43, 0x02, 0x56, 0x02, 0x0c, 0x01, 0x04, 0x02, 0x04, 0x11, 0x06, 0x13, 0x07, 0x15, 0x05,
    0x21, 0x04, 0x23, 0x02, 0x34, 0x02, 0x42, 0x04, 0x56, 0x04, 0x57, 0x09, 0x80, 0x01, 0x02, 0x7e,
    0x00, 0x01, 0x7e, 0x01, 0x00, 0x7e, 0x08, 0x02, 0x02, 0x00, 0x7e, 0x00, 0x01, 0x7f, 0x00, 0x02,
    0x07, 0x00, 0x01, 0x09, 0x00, 0x00, 0x01, 0x09, 0x01, 0x00, 0x02, 0x07, 0x00, 0x7f, 0x01, 0x00,
    0x01, 0x7e, 0x00, 0x02, 0x07, 0x01, 0x7f, 0x01, 0x74, 0x00, 0x09, 0x08, 0x00, 0x02, 0x01, 0x0a,
    0x01, 0x01, 0x09, 0x7f, 0x04, 0x09, 0x01, 0x7f, 0x00, 0x09, 0x16, 0x6c, 0x65, 0x74, 0x74, 0x65,
    0x72, 0x73, 0x21, 0x3f, 0x0a, 0x00, 0x01,
];

// Its changes.
const TYPED_CHANGES: &[Sample] = &[(1, 0xaa, 1, 1, 8, 0), (2, 0xbb, 1, 9, 2, 1)];

// The counter and the actor of the id, and the total.
type Expected = (u64, u8, i128);

// The bytes of the hashes of some heads, and the entries there.
const VIEWS: &[(&[u8], &[Expected])] = &[
    (
        &[1],
        &[(1, 0xaa, 10), (3, 0xaa, 0), (2, 0xaa, 0), (4, 0xaa, 0)],
    ),
    (
        &[2],
        &[(1, 0xaa, 15), (3, 0xaa, 0), (6, 0xbb, 0), (4, 0xaa, 0)],
    ),
    (
        &[3],
        &[(1, 0xaa, 7), (3, 0xaa, 0), (6, 0xcc, 0), (4, 0xaa, 0)],
    ),
    (
        &[2, 3],
        &[
            (1, 0xaa, 12),
            (3, 0xaa, 0),
            (6, 0xbb, 0),
            (6, 0xcc, 0),
            (4, 0xaa, 0),
        ],
    ),
    (&[4], &[(3, 0xaa, 0), (6, 0xbb, 0)]),
    (&[3, 4], LAST),
];

// The entries at all heads.
const LAST: &[Expected] = &[(3, 0xaa, 0), (6, 0xbb, 0), (6, 0xcc, 0)];

fn is_entry(entry: &EntryRef<'_>, expected: &Expected) -> bool {
    let (counter, actor, total) = *expected;
    entry.id.counter == counter && entry.id.actor == &[actor][..] && entry.total == total
}

// Whether just these entries are left, put into one that is there.
fn are_put<'a>(shown: &mut Shown<'a>, expected: &[Expected]) -> bool {
    let mut entry = EntryRef::blank();
    for i in 0..expected.len() {
        if !shown.next_into(&mut entry) || !is_entry(&entry, &expected[i]) {
            return false;
        }
    }
    !shown.next_into(&mut entry)
}

// The same, handed out.
fn are_handed_out(shown: &mut Shown<'_>, expected: &[Expected]) -> bool {
    for i in 0..expected.len() {
        match shown.next() {
            Some(entry) => {
                if !is_entry(&entry, &expected[i]) {
                    return false;
                }
            }
            None => return false,
        }
    }
    shown.next().is_none()
}

// Whether just these entries are left of so many rows. The walk stands in a box, which is let go in one step.
fn is_whole(
    alloc: Global,
    shown: Shown<'_>,
    rows: u64,
    expected: &[Expected],
) -> Result<bool, Fail> {
    let mut boxed = Box::new(alloc, shown)?;
    Ok(boxed.most() == rows && are_put(&mut boxed, expected))
}

// Whether just these entries are left at a clock.
fn is_part(alloc: Global, shown: Shown<'_>, expected: &[Expected]) -> Result<bool, Fail> {
    let mut boxed = Box::new(alloc, shown)?;
    Ok(are_handed_out(&mut boxed, expected))
}

// What the letters and the entries behind them say, one after another, and how many of these there are.
fn said<'a>(shown: &mut Shown<'a>, text: &mut Vec<u8>) -> Result<usize, Fail> {
    let mut entry = EntryRef::blank();
    for turns in 0..text.capacity() {
        match shown.next_run(&mut entry) {
            None => return Ok(turns),
            Some(letters) => {
                text.extend_from_slice(letters)?;
                text.extend_from_slice(entry.value.raw)?;
            }
        }
    }
    Ok(text.capacity())
}

// Whether a walk says just this, in fewer turns than it has letters.
fn says(alloc: Global, shown: Shown<'_>, expected: &[u8]) -> Result<bool, Fail> {
    let mut boxed = Box::new(alloc, shown)?;
    let mut text = Vec::with_capacity(alloc, 16)?;
    let turns = said(&mut boxed, &mut text)?;
    Ok(text.as_slice() == expected && turns < expected.len())
}

// Whether the typed document says just this where every id is covered.
fn says_whole(alloc: Global, expected: &[u8]) -> Result<bool, Fail> {
    let Ok(doc) = DocRef::read(TYPED) else {
        return Ok(false);
    };
    says(alloc, Shown::whole(doc), expected)
}

// Whether it says just this at the clock.
fn says_part(alloc: Global, clock: &Clock, expected: &[u8]) -> Result<bool, Fail> {
    let Ok(doc) = DocRef::read(TYPED) else {
        return Ok(false);
    };
    says(alloc, Shown::over(doc, clock), expected)
}

// Whether the contents of a document show just these where every id is covered.
fn shows_whole(alloc: Global, contents: &[u8], expected: &[Expected]) -> Result<bool, Fail> {
    let Ok(doc) = DocRef::read(contents) else {
        return Ok(false);
    };
    let rows = doc.rows().left();
    is_whole(alloc, Shown::whole(doc), rows, expected)
}

// Whether the contents of a document show just these at the clock.
fn shows<'a>(
    alloc: Global,
    contents: &'a [u8],
    clock: &'a Clock,
    expected: &[Expected],
) -> Result<bool, Fail> {
    let Ok(doc) = DocRef::read(contents) else {
        return Ok(false);
    };
    is_part(alloc, Shown::over(doc, clock), expected)
}

fn hash(byte: u8) -> Hash {
    Hash([byte; 32])
}

fn add(graph: &mut Graph, alloc: Global, sample: &Sample) -> Result<(), Fail> {
    let (byte, actor, seq, start, count, dep) = *sample;
    if start == 0 {
        return Err(Fail::from("no such change"));
    }
    let actor = ActorId::of(alloc, &[actor])?;
    let named = [hash(dep)];
    let deps = if dep == 0 { &[] } else { &named[..] };
    graph.add(
        alloc,
        hash(byte),
        &actor,
        u64::from(seq),
        u64::from(start),
        u64::from(count),
        deps,
    )?;
    Ok(())
}

fn add_all(graph: &mut Graph, alloc: Global, samples: &[Sample]) -> Result<(), Fail> {
    for i in 0..samples.len() {
        add(graph, alloc, &samples[i])?;
    }
    Ok(())
}

fn clock_at(alloc: Global, graph: &Graph, bytes: &[u8]) -> Result<Clock, Fail> {
    let mut heads = Vec::new(alloc);
    for i in 0..bytes.len() {
        heads.push(hash(bytes[i]))?;
    }
    Ok(graph.clock(alloc, heads.as_slice())?)
}

#[test]
fn reads_at_heads(rt: HostRuntime) -> Result<(), Fail> {
    let mut graph = Graph::new(rt.alloc());
    add_all(&mut graph, rt.alloc(), CHANGES)?;
    reads(&rt, rt.alloc(), &graph)
}

fn reads(rt: &impl Abort, alloc: Global, graph: &Graph) -> Result<(), Fail> {
    for &(heads, expected) in VIEWS {
        let clock = clock_at(alloc, graph, heads)?;
        assert!(rt; shows(alloc, DOCUMENT, &clock, expected)?);
    }
    Ok(())
}

#[test]
fn reads_all(rt: HostRuntime) -> Result<(), Fail> {
    assert!(rt; shows_whole(rt.alloc(), DOCUMENT, LAST)?);
    Ok(())
}

#[test]
fn hands_out_letters(rt: HostRuntime) -> Result<(), Fail> {
    assert!(rt; says_whole(rt.alloc(), b"letters!?")?);
    Ok(())
}

#[test]
fn hands_out_letters_at_heads(rt: HostRuntime) -> Result<(), Fail> {
    let mut graph = Graph::new(rt.alloc());
    add_all(&mut graph, rt.alloc(), TYPED_CHANGES)?;
    let clock = clock_at(rt.alloc(), &graph, &[1])?;
    assert!(rt; says_part(rt.alloc(), &clock, b"letters")?);
    Ok(())
}
