//! Outside values for column metadata: a whole change's columns, refusals in their order, lists of actors.
use am_colmeta::{ActorList, ColumnFault, ColumnList, ColumnWriter, Columns, push_metadata};
use std::alloc::AllocError;

// The metadata and the columns of a change that sets one key, with one more column of numbers.
const METADATA: [u8; 16] = [
    0x07, 0x15, 0x03, 0x34, 0x01, 0x42, 0x02, 0x56, 0x02, 0x57, 0x01, 0x70, 0x02, 0xb2, 0x01, 0x02,
];

const BODY: [u8; 13] = [
    0x7f, 0x01, 0x61, 0x01, 0x7f, 0x01, 0x7f, 0x13, 0x01, 0x7f, 0x00, 0x7f, 0x05,
];

const KNOWN: [u64; 7] = [0x15, 0x34, 0x42, 0x56, 0x57, 0x70, 0xb2];

// Metadata, a body, and why the columns are refused.
const REFUSALS: &[(&[u8], &[u8], Option<ColumnFault>)] = &[
    (
        &[0x01, 0x1d, 0x00],
        &[],
        Some(ColumnFault::CompressedColumn),
    ),
    (
        &[0x02, 0x15, 0x00, 0x15, 0x00],
        &[],
        Some(ColumnFault::NotAscending),
    ),
    (
        &[0x01, 0x61, 0x00],
        &[],
        Some(ColumnFault::UnknownColumn(97)),
    ),
    (&[0x01, 0x15, 0x02], &[0x00], Some(ColumnFault::Width)),
    (
        &[0x02, 0x15, 0x00, 0x0d, 0x00],
        &[],
        Some(ColumnFault::CompressedColumn),
    ),
    (
        &[0x02, 0x61, 0x00, 0x15, 0x00],
        &[],
        Some(ColumnFault::NotAscending),
    ),
    (
        &[0x01, 0x61, 0x02],
        &[0x00],
        Some(ColumnFault::UnknownColumn(97)),
    ),
    (&[0x01, 0x15, 0x01], &[0x00], None),
];

#[test]
fn refuses_in_order(rt: HostRuntime) {
    for &(metadata, body, want) in REFUSALS {
        let (list, size) = ColumnList::read(metadata).expect(&rt, "the metadata can be read");
        assert!(rt; size == metadata.len());
        match Columns::over(list, body, &[21]) {
            Ok(_) => assert!(rt; want.is_none(), "the columns are refused"),
            Err(fault) => assert!(rt; want == Some(fault), "another fault is told"),
        }
    }
    // metadata that are cut off
    assert!(rt; ColumnList::read(&METADATA[..15]).is_err());
    assert!(rt; ColumnList::read(&[]).is_err());
}

#[test]
fn reads_the_columns_of_a_change(rt: HostRuntime) {
    let (list, size) = ColumnList::read(&METADATA).expect(&rt, "the metadata can be read");
    assert!(rt; size == 16);
    assert!(rt; !list.compressed());
    assert!(rt; list.total() == 13);
    let mut columns = Columns::over(list.again(), &BODY, &KNOWN).expect(
        &rt,
        "the columns fill the body",
    );
    assert!(rt; columns.find(0x15) == &[0x7f, 0x01, 0x61][..]);
    assert!(rt; columns.again().find(0x57) == &[0x01][..]);
    assert!(rt; columns.find(0xb2) == &[0x7f, 0x05][..]);
    assert!(rt; columns.find(0x25).is_empty());
    let mut rest = &BODY[..];
    for specification in KNOWN {
        let (told, column) = columns.next().expect(&rt, "there is a column more");
        assert!(rt; told == specification);
        assert!(rt; rest.starts_with(column));
        let (_, more) = rest.split_at(column.len());
        rest = more;
    }
    assert!(rt; rest.is_empty());
    assert!(rt; columns.next().is_none());
}

// The columns of that change, two of them without bytes, by their lengths.
const LENGTHS: &[(u64, u64)] = &[
    (0x15, 3),
    (0x25, 0),
    (0x34, 1),
    (0x42, 2),
    (0x56, 2),
    (0x57, 1),
    (0x70, 2),
    (0xa5, 0),
    (0xb2, 2),
];

#[test]
fn writes_metadata_by_lengths(rt: HostRuntime) -> Result<(), AllocError> {
    let mut metadata = Vec::new(rt.alloc());
    metadata.push(0xee)?;
    push_metadata(&mut metadata, LENGTHS)?;
    assert!(rt; metadata.as_slice().starts_with(&[0xee]));
    assert!(rt; metadata.as_slice().ends_with(&METADATA));
    assert!(rt; metadata.len() == 17);
    Ok(())
}

#[test]
fn writes_the_columns_of_a_change(rt: HostRuntime) -> Result<(), AllocError> {
    let mut writer = ColumnWriter::new(rt.alloc());
    writer.push(0x15, &[0x7f, 0x01, 0x61])?;
    writer.push(0x25, &[])?;
    writer.push(0x34, &[0x01])?;
    writer.push(0x42, &[0x7f, 0x01])?;
    writer.push(0x56, &[0x7f, 0x13])?;
    writer.push(0x57, &[0x01])?;
    writer.push(0x70, &[0x7f, 0x00])?;
    writer.push(0xa5, &[])?;
    writer.push(0xb2, &[0x7f, 0x05])?;
    let (metadata, body) = writer.finish()?;
    assert!(rt; metadata.as_slice() == &METADATA[..]);
    assert!(rt; body.as_slice() == &BODY[..]);
    Ok(())
}

// The actors of the first list take as many bytes each, those of the second don't.
const LISTS: &[&[u8]] = &[
    &[0x03, 0x01, 0xaa, 0x01, 0xbb, 0x01, 0xcc],
    &[0x03, 0x01, 0xaa, 0x02, 0xbb, 0xbb, 0x01, 0xcc],
];

#[test]
fn reads_lists_of_actors(rt: HostRuntime) {
    for &bytes in LISTS {
        let (actors, size) = ActorList::read(bytes).expect(&rt, "the actors can be read");
        assert!(rt; size == bytes.len());
        let mut rest = actors.again();
        rest.skip(2);
        assert!(rt; rest.next() == Some(&[0xcc][..]));
        assert!(rt; rest.next().is_none());
        let mut none = actors.again();
        none.skip(4);
        assert!(rt; none.count() == 0);
        assert!(rt; actors.get(2) == Some(&[0xcc][..]));
        assert!(rt; actors.get(3).is_none());
    }
    let bytes: [u8; 7] = [0x02, 0x01, 0xaa, 0x02, 0xbb, 0xcc, 0xff];
    let (actors, size) = ActorList::read(&bytes).expect(&rt, "the actors can be read");
    assert!(rt; size == 6);
    assert!(rt; actors.count() == 2);
    assert!(rt; actors.get(0) == Some(&[0xaa][..]));
    assert!(rt; actors.again().get(1) == Some(&[0xbb, 0xcc][..]));
    assert!(rt; actors.get(2).is_none());
    assert!(rt; ActorList::read(&bytes[..5]).is_err());
}
