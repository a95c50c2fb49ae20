//! Damaged documents: each bit turned, each front part, and runs that claim more rows than there may be. What is wrong
//! with each was told by another program.
use crate::calls::empty;
use crate::saving::{BOTH, ONE};
use crate::turning::{contents_of, mended, turned};
use am_doc::{DocFault, DocRef};
use am_store::{LoadError, LoadFault, ReadFault, Report};
use am_types::Bytes;
use std::alloc::Global;
use std::process::Abort;

/// Each bit of a byte, the lowest first.
const BITS: [u8; 8] = [1, 2, 4, 8, 16, 32, 64, 128];

/// A document, and what is wrong with it where one bit is turned: a letter for each bit.
struct Damaged {
    document: &'static [u8],
    /// With the old checksum: at the magic, at the checksum, and at the type and the two bytes behind it. All other letters
    /// are `s`.
    old: &'static str,
    /// In the contents, with the checksum of the damaged ones.
    mended: &'static str,
}

const DAMAGED: &[Damaged] = &[
    Damaged {
        document: ONE,
        old: "\
            mmmmmmmmmmmmmmmmmmmmmmmmmmmmmmmm\
            ssssssssssssssssssssssssssssssss\
            ssssssssssssststssssssss",
        mended: ONE_MENDED,
    },
    Damaged {
        document: BOTH,
        old: "\
            mmmmmmmmmmmmmmmmmmmmmmmmmmmmmmmm\
            ssssssssssssssssssssssssssssssss\
            sssssssstttstttslttttttt",
        mended: BOTH_MENDED,
    },
];

/// What is wrong with the document of one change.
const ONE_MENDED: &str = "\
    ddddddddddddddddhhhhhhhhddddddddhhhhhhhhhhhhhhhhhhhhhhhhhhhhhhhhhhhhhhhhhhhhhhhhhhhhhhhhhhhhhhhh\
    hhhhhhhhhhhhhhhhhhhhhhhhhhhhhhhhhhhhhhhhhhhhhhhhhhhhhhhhhhhhhhhhhhhhhhhhhhhhhhhhhhhhhhhhhhhhhhhh\
    hhhhhhhhhhhhhhhhhhhhhhhhhhhhhhhhhhhhhhhhhhhhhhhhhhhhhhhhhhhhhhhhhhhhhhhhhhhhhhhhhhhhhhhhhhhhhhhh\
    cdccdddddddcdddcdddddddcdddcdddcdddddddcdddcdddcdddddddcdddcdddcdddddddcdddcdddcdddddddcdddcdddc\
    dddddddccccddddddddcdddddddddddddddcdddddddddddddddcdddddddddddddddcdddddddddddddddcdddddddddddd\
    dddcdddddddddddddddcdddddddddddddddcdddddddddddddddddddddddddddddddddddddddddddddnnnnndddddddddd\
    nnnnnnddddddddddhhhhhhhdddddddddddddddddddddddddddddddddddddddddddddddddhhhhhhhddddddddddddddddd\
    dddddddddnnnnnddddddddddddddddddhnhdddddddddddddddhhddddhhhhhhhddddddddddddddddddddddddd";

/// What is wrong with the document of two changes. The places of its heads, behind the columns, are compared with nothing.
const BOTH_MENDED: &str = "\
    ddddddddddddddddhhhhhhnhddddddddhhhhhnhncdddddddhhhhhhhhhhhhhhhhhhhhhhhhhhhhhhhhhhhhhhhhhhhhhhhh\
    hhhhhhhhhhhhhhhhhhhhhhhhhhhhhhhhhhhhhhhhhhhhhhhhhhhhhhhhhhhhhhhhhhhhhhhhhhhhhhhhhhhhhhhhhhhhhhhh\
    hhhhhhhhhhhhhhhhhhhhhhhhhhhhhhhhhhhhhhhhhhhhhhhhhhhhhhhhhhhhhhhhhhhhhhhhhhhhhhhhhhhhhhhhhhhhhhhh\
    hhhhhhhhhhhhhhhhhhhhhhhhhhhhhhhhhhhhhhhhhhhhhhhhhhhhhhhhhhhhhhhhhhhhhhhhhhhhhhhhhhhhhhhhhhhhhhhh\
    hhhhhhhhhhhhhhhhhhhhhhhhhhhhhhhhhhhhhhhhhhhhhhhhhhhhhhhhhhhhhhhhhhhhhhhhhhhhhhhhhhhhhhhhhhhhhhhh\
    hhhhhhhhhhhhhhhhhhhhhhhhhhhhhhhhhhhhhhhhhhhhhhhhhhhhhhhhhhhhhhhhhhhhhhhhhhhhhhhhcdcccddddddcdddc\
    dddddddcdddcdddcdddddddcdddcdddcdddddddcdddcdddcdddddddcdddcdddcdddddddcdddcdddcdddddddccccdcddd\
    dddcdddddddddddddddcdddddddddddddddcdddddddddddddddcdddddddddddddddcdddddddddddddddcdddddddddddd\
    dddcdddddddddddddddcddddddddddddddddddddddddddddndddddddnddddddddddddddddnnnnnddnnnnnndddddddddd\
    nnnnnnddnnnnnnddddddddddhhhhhhhdddddddddddddddddddddddddddddddddddddddddddddddddhhhhhhhddddddddd\
    ndddddddnddddddddddddddddnnnnnddnnnnnnddddddddddddddddddhnhdddddddddddddddhhddddhhhhhhhdhhhhhhhd\
    ddddddddddddddddadddddddaddddddd";

// The letter for what a file was found to be: `a` where it was read, `?` where another chunk than the first is bad.
fn letter_of(read: Result<Report, ReadFault>) -> u8 {
    match read {
        Ok(_) => b'a',
        Err(ReadFault::Load(LoadError { chunk: 1, fault })) => fault_letter(fault),
        Err(_) => b'?',
    }
}

fn fault_letter(fault: LoadFault) -> u8 {
    match fault {
        LoadFault::BadMagic => b'm',
        LoadFault::Truncated => b't',
        LoadFault::BadLength => b'l',
        LoadFault::BadChecksum => b's',
        LoadFault::ChunkType(_) => b'y',
        LoadFault::CompressedChunk => b'z',
        LoadFault::DocumentHere => b'?',
        LoadFault::CompressedColumn => b'c',
        LoadFault::BadChange => b'b',
        LoadFault::BadDocument => b'd',
        LoadFault::NoHistory => b'n',
        LoadFault::HeadsMismatch(_) => b'h',
    }
}

// An empty store finds the file to be this. Place and bit tell of a failure where it was.
fn finds(rt: &impl Abort, alloc: Global, file: &[u8], want: u8, place: usize, bit: u8) {
    let mut store = empty(rt, alloc);
    let letter = letter_of(store.read_file(alloc, file, false));
    assert_eq!(rt; letter, want, "at byte {place}, bit {bit}");
}

#[test]
fn a_turned_bit_is_found(rt: HostRuntime) {
    for damaged in DAMAGED {
        finds_each_bit(&rt, rt.alloc(), damaged.document, false, damaged.old);
    }
}

#[test]
fn a_turned_bit_is_found_where_the_checksum_is_right(rt: HostRuntime) {
    for damaged in DAMAGED {
        let contents = contents_of(&rt, damaged.document);
        finds_each_bit(&rt, rt.alloc(), contents, true, damaged.mended);
    }
}

// Of a document, or of the contents of one that is mended.
fn finds_each_bit(rt: &impl Abort, alloc: Global, bytes: &[u8], is_mended: bool, letters: &str) {
    let mut letters = letters.bytes();
    // (behind the last letter a checksum tells, and of a mended document there is none)
    let other = if is_mended { b'?' } else { b's' };
    for (place, _) in bytes.iter().enumerate() {
        for bit in BITS {
            let file = with_turned(rt, alloc, bytes, is_mended, place, bit);
            let want = letters.next().unwrap_or(other);
            finds(rt, alloc, file.as_slice(), want, place, bit);
        }
    }
}

fn with_turned(
    rt: &impl Abort,
    alloc: Global,
    bytes: &[u8],
    is_mended: bool,
    place: usize,
    bit: u8,
) -> Bytes {
    if is_mended {
        mended(rt, alloc, bytes, place, bit)
    } else {
        Bytes::from(turned(rt, alloc, bytes, place, bit))
    }
}

#[test]
fn each_front_part_is_truncated(rt: HostRuntime) {
    for damaged in DAMAGED {
        finds_each_front_part(&rt, rt.alloc(), damaged.document);
    }
}

// No bytes at all are a file of no chunks.
fn finds_each_front_part(rt: &impl Abort, alloc: Global, document: &[u8]) {
    finds(rt, alloc, &[], b'a', 0, 0);
    for len in 1..document.len() {
        finds(rt, alloc, &document[..len], b't', len, 0);
    }
    finds(rt, alloc, document, b'a', document.len(), 0);
}

/// The front of the contents of a document of one change, whose columns are runs.
const RUNS: [u8; 70] = [
    0x01, 0x01, 0xaa, 0x01, 0xd9, 0x9a, 0xa0, 0x4d, 0x26, 0x27, 0xb0, 0x64, 0x62, 0xea, 0x18, 0x1e,
    0x06, 0x3a, 0x2e, 0x07, 0xe1, 0x62, 0x55, 0xc0, 0x88, 0xd1, 0xfe, 0x97, 0xec, 0xf9, 0xc9, 0x64,
    0xcf, 0xa6, 0xce, 0x32, 0x06, 0x01, 0x02, 0x03, 0x02, 0x13, 0x05, 0x23, 0x02, 0x40, 0x02, 0x56,
    0x02, 0x07, 0x15, 0x06, 0x21, 0x05, 0x23, 0x05, 0x34, 0x04, 0x42, 0x05, 0x56, 0x05, 0x80, 0x01,
    0x05, 0x7f, 0x00, 0x7f, 0x01, 0x7f,
];

/// What stands between the numbers of rows, which are one.
const BETWEEN: &[&[u8]] = &[
    &[0x7f, 0x00, 0x7f, 0x00, 0x7f, 0x07],
    &[0x01, 0x61],
    &[0x00],
    &[0x01],
    &[],
    &[0x01],
    &[0x02],
    &[0x00, 0x00],
];

#[test]
fn runs_have_as_many_rows_as_there_may_be(rt: HostRuntime) {
    let most = of_rows(&rt, rt.alloc(), &[0x80, 0x80, 0x80, 0x02]);
    assert!(rt; DocRef::read(&most).is_ok());
    let more = of_rows(&rt, rt.alloc(), &[0x81, 0x80, 0x80, 0x02]);
    assert!(rt; matches!(DocRef::read(&more), Err(DocFault::BadDocument)));
}

// The contents with so many rows.
fn of_rows(rt: &impl Abort, alloc: Global, count: &[u8]) -> Vec<u8> {
    let mut contents = RUNS.to_vec(alloc).expect(rt, "there is memory");
    for &piece in BETWEEN {
        push(rt, &mut contents, count);
        push(rt, &mut contents, piece);
    }
    contents
}

fn push(rt: &impl Abort, out: &mut Vec<u8>, bytes: &[u8]) {
    out.extend_from_slice(bytes).expect(rt, "there is memory");
}
