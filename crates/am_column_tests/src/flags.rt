//! Flags with their spellings, from worked examples of the format.
use am_flags::{FlagCursor, FlagWriter, is_canonical, is_canonical_maybe};
use std::alloc::AllocError;

#[test]
fn written(rt: HostRuntime) -> Result<(), AllocError> {
    let mut writer = FlagWriter::new(rt.alloc());
    writer.push(true)?;
    writer.push(true)?;
    writer.push(false)?;
    assert!(rt; writer.finish_plain()?.as_slice() == &[0, 2, 1][..]);
    let writer = FlagWriter::new(rt.alloc());
    assert!(rt; writer.finish_plain()?.as_slice().is_empty());
    let mut writer = FlagWriter::new(rt.alloc());
    writer.push(false)?;
    writer.push(true)?;
    assert!(rt; writer.finish_maybe()?.as_slice() == &[1, 1][..]);
    let mut writer = FlagWriter::new(rt.alloc());
    writer.push(false)?;
    assert!(rt; writer.finish_maybe()?.as_slice().is_empty());
    Ok(())
}

#[test]
fn taken(rt: HostRuntime) -> Result<(), AllocError> {
    let mut writer = FlagWriter::new(rt.alloc());
    writer.push(false)?;
    if let Ok(mut from) = FlagCursor::over(&[2, 3, 1], 6) {
        if from.left() >= 4 {
            writer.take(&mut from, 4)?;
        }
    }
    assert!(rt; writer.finish_plain()?.as_slice() == &[3, 2][..]);
    Ok(())
}

#[test]
fn read(rt: HostRuntime) {
    let mut cursor = FlagCursor::over(&[0, 2, 1], 3).expect(&rt, "the flags can be read");
    assert!(rt; cursor.left() == 3);
    assert!(rt; cursor.again().next() == Some(true));
    cursor.skip(2);
    assert!(rt; cursor.next() == Some(false));
    assert!(rt; cursor.next() == None);
    let bytes = [0xff, 0xff, 0xff, 0xff, 0x0f, 1];
    let mut many = FlagCursor::over(&bytes, 1 << 32).expect(&rt, "many flags can be read");
    many.skip((1 << 32) - 1);
    assert!(rt; many.next() == Some(true));
}

// Bytes, the most flags, whether they can be read, and whether they are canonical: where falses stand, and where falses
// alone are left out.
const SPELLINGS: &[(&[u8], u64, bool, bool, bool)] = &[
    (&[], 0, true, true, true),
    (&[0, 2, 1], 3, true, true, true),
    (&[3], 3, true, true, false),
    (&[1, 1], 3, true, true, true),
    (&[0], 3, true, false, false),
    (&[1, 0], 3, false, false, false),
    (&[0, 2, 0], 3, false, false, false),
    (&[0x80, 0], 3, false, false, false),
    (&[0x80], 3, false, false, false),
    // one flag too many
    (&[0, 2, 1], 2, false, false, false),
    (&[0, 2, 2], 3, false, false, false),
];

#[test]
fn judged(rt: HostRuntime) {
    for &(bytes, most, readable, plain, maybe) in SPELLINGS {
        assert!(rt;
            FlagCursor::over(bytes, most).is_ok() == readable,
            "of {bytes:?}"
        );
        assert!(rt; is_canonical(bytes, most) == plain, "of {bytes:?}");
        assert!(rt; is_canonical_maybe(bytes, most) == maybe, "of {bytes:?}");
    }
}
