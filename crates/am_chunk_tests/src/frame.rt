//! Chunks that the reference encoder made.
ghost use Rattle.std.specs.Prelude.{◌<◌};

use am_frame::{FrameFault, framed, next_frame};
use std::alloc::{AllocError, Global};
use std::test::Fail;

/// A change that sets the key "a" to 1, and a document without changes.
const FILE: [u8; 56] = [
    0x85, 0x6f, 0x4a, 0x83, 0xd9, 0x9a, 0xa0, 0x4d, 0x01, 0x20, 0x00, 0x01, 0xaa, 0x01, 0x01, 0x00,
    0x00, 0x00, 0x06, 0x15, 0x03, 0x34, 0x01, 0x42, 0x02, 0x56, 0x02, 0x57, 0x01, 0x70, 0x02, 0x7f,
    0x01, 0x61, 0x01, 0x7f, 0x01, 0x7f, 0x13, 0x01, 0x7f, 0x00, 0x85, 0x6f, 0x4a, 0x83, 0xb8, 0x1a,
    0x95, 0x44, 0x00, 0x04, 0x00, 0x00, 0x00, 0x00,
];

// Whether this is the chunk of the contents.
fn is_chunk_of(alloc: Global, kind: u8, contents: &[u8], chunk: &[u8]) -> Result<bool, AllocError>
    requires { kind < 2 }
{
    Ok(framed(alloc, kind, contents)?.as_slice() == chunk)
}

#[test]
fn reads_and_writes_chunks(rt: HostRuntime) -> Result<(), Fail> {
    let Ok(change) = next_frame(&FILE) else {
        return Err(Fail::from("no change"));
    };
    assert_eq!(rt; change.kind, 1);
    assert_eq!(rt; change.contents.len(), 32);
    let Ok(document) = next_frame(change.rest) else {
        return Err(Fail::from("no document"));
    };
    assert_eq!(rt; document.kind, 0);
    assert_eq!(rt; document.rest.len(), 0);
    assert!(rt; is_chunk_of(rt.alloc(), 1, change.contents, &FILE[..42])?);
    assert!(rt; is_chunk_of(rt.alloc(), 0, document.contents, &FILE[42..])?);
    Ok(())
}

// What stands in place of magic, checksum, type and length of the change, and the fault.
const WRONG: &[(&[u8], FrameFault)] = &[
    (
        b"\x84\x6f\x4a\x83\xd8\x9a\xa0\x4d\x01\x20",
        FrameFault::BadMagic,
    ),
    (
        b"\x85\x6f\x4a\x83\xd9\x9a\xa0\x4d\x01\xff\x7f",
        FrameFault::Truncated,
    ),
    (
        b"\x85\x6f\x4a\x83\xd9\x9a\xa0\x4d\x01\xa0\x00",
        FrameFault::BadLength,
    ),
    (
        b"\x85\x6f\x4a\x83\xd8\x9a\xa0\x4d\x01\x20",
        FrameFault::BadChecksum,
    ),
    (
        b"\x85\x6f\x4a\x83\xd9\x9a\xa0\x4d\x02\x20",
        FrameFault::BadChecksum,
    ),
    (
        b"\x85\x6f\x4a\x83\x51\x13\xf8\xe0\x07\x20",
        FrameFault::ChunkType(7),
    ),
    (
        b"\x85\x6f\x4a\x83\x44\x1c\xda\x16\x02\x20",
        FrameFault::CompressedChunk,
    ),
    (
        b"\x85\x6f\x4a\x83\x44\x1c\xda\x16\x07\x20",
        FrameFault::BadChecksum,
    ),
];

// What is wrong with the chunk that begins with these bytes.
fn fault_of(alloc: Global, head: &[u8]) -> Result<Option<FrameFault>, AllocError> {
    let mut bytes = head.to_vec(alloc)?;
    bytes.extend_from_slice(&FILE[10..])?;
    Ok(next_frame(&bytes).err())
}

#[test]
fn names_what_is_wrong_with_a_chunk(rt: HostRuntime) -> Result<(), Fail> {
    for &(head, fault) in WRONG {
        assert_eq!(rt; fault_of(rt.alloc(), head)?, Some(fault), "at {head:?}");
    }
    assert_eq!(rt; next_frame(&[]).err(), Some(FrameFault::Truncated));
    assert_eq!(rt; next_frame(&FILE[..41]).err(), Some(FrameFault::Truncated));
    Ok(())
}
