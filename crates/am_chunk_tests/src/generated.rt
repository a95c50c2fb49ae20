//! The hashes of generated changes; how many changes and operations are made, what they depend on, and which letters they
//! insert.
ghost use Rattle.std.specs.Prelude.{All};
ghost use Rattle.am_types.specs.Fine.{Fine};

use am_change::with_hashes;
use am_gen::made;
use am_types::{Change, Hash, Key, List};
use std::alloc::{AllocError, Global};
use std::process::Abort;

/// Hashes of generated changes, each at its place, as another program computed them. A hash depends on all changes of the
/// rounds before, so the last one tells of thirteen.
const HASHES: &[(usize, [u8; 32])] = &[
    (
        0,
        [
            0x65, 0x25, 0x76, 0xe8, 0x41, 0xc6, 0xca, 0x4d, 0xb1, 0x46, 0x7b, 0x2e, 0xaa, 0x58,
            0xb9, 0x3d, 0x02, 0xb5, 0x30, 0x26, 0xa8, 0xd6, 0x5e, 0xc7, 0x28, 0x62, 0x3e, 0xe7,
            0x2a, 0x5b, 0x28, 0xd9,
        ],
    ),
    (
        1,
        [
            0x6f, 0xd0, 0x1d, 0x21, 0x8e, 0x09, 0xc9, 0x16, 0x69, 0xbc, 0x75, 0x71, 0x17, 0x0f,
            0x38, 0x51, 0x44, 0x12, 0xfe, 0x56, 0xca, 0x89, 0xa7, 0xd3, 0xb8, 0x4c, 0x8b, 0x2d,
            0xb1, 0x11, 0x3e, 0xfd,
        ],
    ),
    (
        2,
        [
            0xdd, 0xe1, 0x4e, 0xee, 0x21, 0xe9, 0x9e, 0x7b, 0x95, 0x75, 0x43, 0x2b, 0xe2, 0x5e,
            0x67, 0x3f, 0x0e, 0xbb, 0xcb, 0x74, 0xd4, 0x4b, 0x6c, 0x37, 0x09, 0xb4, 0x19, 0xf4,
            0x47, 0x0a, 0xc8, 0x2d,
        ],
    ),
    (
        3,
        [
            0x37, 0x32, 0x90, 0x4d, 0xb6, 0x52, 0x21, 0x92, 0x2a, 0x56, 0x43, 0x53, 0x70, 0xf8,
            0x4f, 0xb9, 0xb1, 0x42, 0x7a, 0x1d, 0x9e, 0x12, 0x23, 0x60, 0x6b, 0x15, 0x95, 0x01,
            0xdc, 0xa8, 0x73, 0x2b,
        ],
    ),
    (
        13,
        [
            0x81, 0xbc, 0xb4, 0xb0, 0x93, 0x99, 0x0e, 0x1e, 0x2a, 0x09, 0x52, 0x93, 0xea, 0x28,
            0xc6, 0xc8, 0xec, 0xac, 0xab, 0x63, 0x2c, 0xf9, 0x0e, 0x28, 0xbd, 0x6d, 0x4d, 0xfa,
            0xc0, 0xc7, 0x1c, 0x52,
        ],
    ),
];

fn operations(changes: &[Change]) -> usize {
    let mut count: usize = 0;
    for change in changes {
        count = count.saturating_add(change.ops.len());
    }
    count
}

// Whether a change begins by inserting this letter.
fn inserts(change: &Change, letter: &[u8]) -> bool {
    match change.ops.as_slice().first() {
        Some(op) => op.insert && op.value.raw.as_slice() == letter,
        None => false,
    }
}

// Whether a change begins at the front of the text.
fn is_at_front(change: &Change) -> bool {
    match change.ops.as_slice().first() {
        Some(op) => matches!(&op.key, Key::Head),
        None => false,
    }
}

// How many changes are asked for, and how many operations they have.
const COUNTS: &[(u8, usize)] = &[(0, 0), (1, 2), (4, 11)];

#[test]
fn counts_are_as_asked(rt: HostRuntime) -> Result<(), AllocError> {
    for &(count, want) in COUNTS {
        let changes = made(rt.alloc(), u64::from(count))?;
        assert_eq!(rt; changes.len(), usize::from(count));
        assert_eq!(rt; operations(changes.as_slice()), want, "of {count} changes");
    }
    Ok(())
}

fn are_rounds(rt: &impl Abort, changes: &[Change]) {
    let [zero, one, two, three, four] = changes else {
        panic!(rt; "five changes");
    };
    let counts = [&zero.deps, &one.deps, &three.deps, &four.deps].map(List::len);
    assert_eq!(rt; counts, [0, 1, 1, 3]);
    assert_eq!(rt; (one.seq, two.seq, four.start), (2, 1, 6));
    assert!(rt; is_at_front(one) && !is_at_front(four));
    assert!(rt; inserts(one, b"b") && inserts(three, b"d"));
}

#[test]
fn rounds_come_after_each_other(rt: HostRuntime) -> Result<(), AllocError> {
    let changes = made(rt.alloc(), 5)?;
    are_rounds(&rt, changes.as_slice());
    Ok(())
}

// Whether the change at this place has this hash.
fn has_hash(pairs: &[(Hash, Change)], place: usize, hash: [u8; 32]) -> bool {
    match pairs.get(place) {
        Some(pair) => pair.0 == Hash(hash),
        None => false,
    }
}

fn have_hashes(rt: &impl Abort, alloc: Global, changes: &[Change]) -> Result<(), AllocError>
    requires { All Fine changes.now }
{
    let pairs = with_hashes(alloc, changes)?;
    for &(place, hash) in HASHES {
        assert!(rt; has_hash(&pairs, place, hash), "at {place}");
    }
    Ok(())
}

#[test]
fn hashes_are_as_another_program_has_them(rt: HostRuntime) -> Result<(), AllocError> {
    let changes = made(rt.alloc(), 14)?;
    have_hashes(&rt, rt.alloc(), changes.as_slice())
}
