//! Lists with their spellings, from worked examples of the format.
use am_runs::{
    Item, RunCursor, RunWriter, SignedCursor, SignedItem, TextCursor, TextItem, UnsignedCursor,
    UnsignedItem, is_canonical, push_list,
};
use std::alloc::AllocError;

// Values, and the bytes that they are written as.
const LISTS: &[(&[Option<u64>], &[u8])] = &[
    (&[], &[]),
    (&[None, None], &[]),
    (&[Some(1), Some(2), Some(3)], &[0x7d, 1, 2, 3]),
    (&[Some(1), Some(1), None], &[2, 1, 0, 1]),
    (
        &[None, Some(5), Some(5), Some(5), Some(300)],
        &[0, 1, 3, 5, 0x7f, 0xac, 2],
    ),
    (
        &[Some(1), Some(2), Some(2), Some(1)],
        &[0x7f, 1, 2, 2, 0x7f, 1],
    ),
    (&[Some(1), Some(2), Some(2), Some(2)], &[0x7f, 1, 3, 2]),
];

#[test]
fn written(rt: HostRuntime) -> Result<(), AllocError> {
    for &(values, bytes) in LISTS {
        assert!(rt; values.len() <= 5);
        let mut out = Vec::new(rt.alloc());
        push_list::<u64, UnsignedItem>(&mut out, values)?;
        assert!(rt; out.as_slice() == bytes, "of {values:?}");
    }
    let mut writer = RunWriter::<UnsignedItem>::new(rt.alloc());
    writer.push(None)?;
    writer.push(None)?;
    assert!(rt; writer.finish()?.as_slice().is_empty());
    Ok(())
}

#[test]
fn written_numbers(rt: HostRuntime) -> Result<(), AllocError> {
    let mut writer = RunWriter::<UnsignedItem>::new(rt.alloc());
    // Nothing is pending, then another byte, then it is this one.
    assert!(rt; !writer.count_byte(5, 1));
    assert!(rt; UnsignedItem::end(&[1]) == Some(1));
    writer.push(Some(&[1]))?;
    assert!(rt; UnsignedItem::end(&[2]) == Some(1));
    writer.push(Some(&[2]))?;
    assert!(rt; UnsignedItem::end(&[3]) == Some(1));
    writer.push(Some(&[3]))?;
    assert!(rt; UnsignedItem::end(&[5]) == Some(1));
    writer.push_alike(Some(&[5]), 2)?;
    assert!(rt; !writer.count_byte(6, 1));
    assert!(rt; writer.count_byte(5, 2));
    assert!(rt; writer.finish()?.as_slice() == &[0x7d, 1, 2, 3, 4, 5][..]);
    Ok(())
}

#[test]
fn taken(rt: HostRuntime) -> Result<(), AllocError> {
    let mut writer = RunWriter::<UnsignedItem>::new(rt.alloc());
    let bytes = [3, 5, 0, 2, 2, 0xac, 2, 0x7f, 1];
    if let Ok(mut from) = RunCursor::<UnsignedItem>::over(&bytes, 8) {
        if from.left() >= 6 {
            writer.take(&mut from, 6)?;
        }
    }
    assert!(rt; writer.finish()?.as_slice() == &[3, 5, 0, 2, 0x7f, 0xac, 2][..]);
    Ok(())
}

// A literal run whose first number is left out, how many of the others come behind 1 and 2 at once, and what is
// written then
const NEXT: &[(&[u8], u64, &[u8])] = &[
    (&[0x7c, 9, 2, 3, 4], 0, &[0x7e, 1, 2]),
    (&[0x7c, 9, 3, 4, 4], 2, &[0x7c, 1, 2, 3, 4]),
    (&[0x7c, 9, 3, 4, 5], 3, &[0x7b, 1, 2, 3, 4, 5]),
];

#[test]
fn pushed_next(rt: HostRuntime) -> Result<(), AllocError> {
    for &(bytes, count, wanted) in NEXT {
        let mut writer = RunWriter::<SignedItem>::new(rt.alloc());
        assert!(rt; SignedItem::end(&[1]) == Some(1));
        writer.push(Some(&[1]))?;
        assert!(rt; SignedItem::end(&[2]) == Some(1));
        writer.push(Some(&[2]))?;
        if let Ok(mut from) = SignedCursor::over(bytes, 4) {
            from.skip(1);
            assert!(rt; writer.push_next(&from, 3)? == count);
        }
        assert!(rt; writer.finish()?.as_slice() == wanted);
    }
    Ok(())
}

// Spellings, the most entries, whether they are canonical as unsigned numbers, and whether they can be read as unsigned
// and as signed ones
const SPELLINGS: &[(&[u8], u64, bool, bool, bool)] = &[
    (&[], 8, true, true, true),
    (&[0x7d, 1, 2, 3], 8, true, true, true),
    (&[2, 1, 0x7f, 2], 8, true, true, true),
    (&[0, 1, 0x7f, 3], 8, true, true, true),
    (&[0x7f, 3, 0, 1], 8, true, true, true),
    (&[3, 5, 0, 2, 2, 0xac, 2, 0x7f, 1], 8, true, true, true),
    (&[0x7f, 1, 3, 2, 0x7e, 3, 4], 8, true, true, true),
    (&[0x7d, 1, 1, 2], 8, false, true, true),
    (&[1, 1], 8, false, true, true),
    (&[0x7f, 1, 0x7f, 2], 8, false, true, true),
    (&[0, 1, 0, 1, 0x7f, 3], 8, false, true, true),
    (&[0, 2], 8, false, true, true),
    (&[2, 1, 0x7f, 1], 8, false, true, true),
    (&[2, 1, 2, 1], 8, false, true, true),
    (&[0, 0], 1000, false, false, false),
    (&[0, 0x80, 0], 1000, false, false, false),
    (&[2], 1000, false, false, false),
    (&[0x7e, 1], 1000, false, false, false),
    (&[0x82, 0, 1], 1000, false, false, false),
    (&[2, 0x81, 0], 1000, false, false, false),
    // a literal run, which has as many numbers as it says or not
    (&[0x7e, 0x80, 1, 1], 3, true, true, true),
    (&[0x7e, 1, 0x80, 0], 3, false, false, false),
    (&[0x7e, 0xc0, 0, 5], 3, false, false, true),
    (&[0x7e, 0xbf, 0x7f, 5], 3, true, true, true),
    (&[0x7e, 0xff, 0x7f, 5], 3, true, true, false),
    (
        &[0x7f, 0x80, 0x80, 0x80, 0x80, 0x80, 0x80, 0x80, 0x80, 1],
        3,
        true,
        true,
        true,
    ),
    (
        &[
            0x7f, 0x80, 0x80, 0x80, 0x80, 0x80, 0x80, 0x80, 0x80, 0x80, 1,
        ],
        3,
        true,
        true,
        false,
    ),
    (
        &[
            0x7f, 0x80, 0x80, 0x80, 0x80, 0x80, 0x80, 0x80, 0x80, 0x80, 0x7f,
        ],
        3,
        false,
        false,
        true,
    ),
    (
        &[
            0x7f, 0x80, 0x80, 0x80, 0x80, 0x80, 0x80, 0x80, 0x80, 0x80, 0x80, 1,
        ],
        3,
        false,
        false,
        false,
    ),
    (&[0x7e, 0x80, 1], 3, false, false, false),
    (&[0x7d, 5, 0x80, 1], 3, false, false, false),
    (&[0x7d, 1, 2], 3, false, false, false),
];

#[test]
fn judged(rt: HostRuntime) {
    for &(bytes, most, canonical, unsigned, signed) in SPELLINGS {
        assert!(rt;
            is_canonical::<UnsignedItem>(bytes, most) == canonical,
            "of {bytes:?}"
        );
        assert!(rt;
            UnsignedCursor::over(bytes, most).is_ok() == unsigned,
            "of {bytes:?}"
        );
        assert!(rt;
            SignedCursor::over(bytes, most).is_ok() == signed,
            "of {bytes:?}"
        );
    }
    assert!(rt; is_canonical::<SignedItem>(&[2, 0x7f, 0x7e, 0xc0, 0, 0xbf, 0x7f, 0, 1], 5));
    assert!(rt; is_canonical::<TextItem>(&[0x7f, 2, 0xc3, 0xa9, 0, 1, 0x7f, 0], 3));
    assert!(rt; TextCursor::over(&[0x7f, 1, 0xc3], 1).is_err());
}

#[test]
fn read_many_nulls(rt: HostRuntime) {
    let bytes = [0u8, 0xff, 0xff, 0xff, 0xff, 0x0f, 0x7f, 3];
    let mut cursor = UnsignedCursor::over(&bytes, 1 << 32).expect(&rt, "many nulls can be read");
    assert!(rt; cursor.left() == 1 << 32);
    assert!(rt; cursor.like() == Some((None, (1 << 32) - 1)));
    cursor.skip((1 << 32) - 1);
    assert!(rt; cursor.again().next() == Some(Some(3)));
    cursor.skip(9);
    assert!(rt; cursor.next() == None);
}

#[test]
fn read_items(rt: HostRuntime) {
    let mut items = RunCursor::<UnsignedItem>::over(&[2, 0xac, 2], 2).expect(
        &rt,
        "the items can be read",
    );
    assert!(rt; items.next() == Some(Some(&[0xac, 2][..])));
    assert!(rt; items.like() == Some((Some(&[0xac, 2][..]), 1)));
    items.skip(1);
    assert!(rt; items.left() == 0);
    assert!(rt; items.again().next() == None);
    let mut numbers = SignedCursor::over(&[2, 0x7f, 0x7e, 0xc0, 0, 0xbf, 0x7f], 4).expect(
        &rt,
        "the numbers can be read",
    );
    assert!(rt; numbers.like() == Some((Some(-1), 2)));
    assert!(rt; numbers.next() == Some(Some(-1)));
    assert!(rt; numbers.left() == 3);
    numbers.skip(1);
    assert!(rt; numbers.again().next() == Some(Some(64)));
}

#[test]
fn repeated_numbers(rt: HostRuntime) {
    let mut numbers = UnsignedCursor::over(&[3, 5, 0x7e, 7, 0x80, 1, 0, 2], 7).expect(
        &rt,
        "the numbers can be read",
    );
    assert!(rt; numbers.next() == Some(Some(5)));
    assert!(rt; numbers.left() == 6);
    assert!(rt; numbers.like() == Some((Some(5), 2)));
    let mut alike = numbers.again();
    assert!(rt; alike.next_alike_within(4) == Some((Some(5), 2)));
    assert!(rt; alike.next_alike_within(4) == Some((Some(7), 1)));
    numbers.skip(2);
    assert!(rt; numbers.next() == Some(Some(7)));
    assert!(rt; numbers.like() == Some((Some(128), 1)));
    assert!(rt; numbers.again().next() == Some(Some(128)));
    assert!(rt; numbers.next_alike_within(4) == Some((Some(128), 1)));
    assert!(rt; numbers.again().next() == Some(None));
    numbers.skip(1);
    assert!(rt; numbers.next() == Some(None));
    assert!(rt; numbers.next_alike_within(4) == None);
    assert!(rt; numbers.next() == None);
}

#[test]
fn repeated_words(rt: HostRuntime) {
    let mut words = TextCursor::over(&[0x7f, 2, 0xc3, 0xa9, 3, 1, 0x61, 0, 1, 0x7f, 0], 6).expect(
        &rt,
        "the texts can be read",
    );
    assert!(rt; words.left() == 6);
    assert!(rt; words.again().next() == Some(Some("é")));
    words.skip(1);
    let mut behind = words.again();
    behind.skip(2);
    assert!(rt; behind.left() == 3);
    assert!(rt; words.next() == Some(Some("a")));
    assert!(rt; words.again().next() == Some(Some("a")));
    assert!(rt; words.next_alike_within(1) == Some((Some("a"), 1)));
    assert!(rt; words.left() == 3);
    words.skip(1);
    assert!(rt; words.next() == Some(None));
    assert!(rt; words.next() == Some(Some("")));
    assert!(rt; words.next() == None);
}
