//! Documents of which one bit is turned.
use am_frame::{framed, next_frame};
use am_types::Bytes;
use std::alloc::Global;
use std::process::Abort;

/// The bytes with this bit of the byte at this place turned.
pub(crate) fn turned(
    rt: &impl Abort,
    alloc: Global,
    bytes: &[u8],
    place: usize,
    bit: u8,
) -> Vec<u8> {
    let mut damaged = bytes.to_vec(alloc).expect(rt, "there is memory");
    let byte = damaged.get_mut(place).expect(rt, "the byte is there");
    *byte ^= bit;
    damaged
}

/// The document whose contents are these with this bit turned, and its checksum is right.
pub(crate) fn mended(
    rt: &impl Abort,
    alloc: Global,
    contents: &[u8],
    place: usize,
    bit: u8,
) -> Bytes {
    let damaged = turned(rt, alloc, contents, place, bit);
    framed(alloc, 0, damaged.as_slice()).expect(rt, "there is memory")
}

/// The contents of a document.
pub(crate) fn contents_of<'a>(rt: &impl Abort, document: &'a [u8]) -> &'a [u8] {
    next_frame(document).expect(rt, "it is a chunk").contents
}
