//! Spellings that the standards give as examples, and refusals of bytes that spell nothing in the shortest way.
use am_leb::{LebFault, push_i, push_u, read_i, read_u, signed_byte, unsigned_byte};
use std::test::Fail;

// A number, its spelling, and the byte if it is spelled in one.
const UNSIGNED: &[(u64, &[u8], Option<u8>)] = &[
    (0, &[0x00], Some(0x00)),
    (2, &[0x02], Some(0x02)),
    (127, &[0x7f], Some(0x7f)),
    (128, &[0x80, 0x01], None),
    (129, &[0x81, 0x01], None),
    (12_857, &[0xb9, 0x64], None),
    (16_383, &[0xff, 0x7f], None),
    (16_384, &[0x80, 0x80, 0x01], None),
    (624_485, &[0xe5, 0x8e, 0x26], None),
    (2_097_151, &[0xff, 0xff, 0x7f], None),
    (2_097_152, &[0x80, 0x80, 0x80, 0x01], None),
    // 2^63 - 1 and 2^63: the last number of nine bytes, and the first of ten
    (
        0x7fff_ffff_ffff_ffff,
        &[0xff, 0xff, 0xff, 0xff, 0xff, 0xff, 0xff, 0xff, 0x7f],
        None,
    ),
    (
        0x8000_0000_0000_0000,
        &[0x80, 0x80, 0x80, 0x80, 0x80, 0x80, 0x80, 0x80, 0x80, 0x01],
        None,
    ),
    (
        u64::MAX,
        &[0xff, 0xff, 0xff, 0xff, 0xff, 0xff, 0xff, 0xff, 0xff, 0x01],
        None,
    ),
];

#[test]
fn spells_unsigned_numbers(rt: HostRuntime) -> Result<(), Fail> {
    for &(number, spelling, byte) in UNSIGNED {
        assert!(rt; unsigned_byte(number) == byte, "at {number}");
        let mut out = Vec::new(rt.alloc());
        push_u(&mut out, number)?;
        assert!(rt; out.as_slice() == spelling, "at {number}");
        out.push(0x55)?;
        assert!(rt; read_u(&out) == Ok((number, spelling.len())), "at {number}");
    }
    Ok(())
}

// The same of signed numbers.
const SIGNED: &[(i64, &[u8], Option<u8>)] = &[
    (2, &[0x02], Some(0x02)),
    (-1, &[0x7f], Some(0x7f)),
    (-2, &[0x7e], Some(0x7e)),
    (63, &[0x3f], Some(0x3f)),
    (64, &[0xc0, 0x00], None),
    (-64, &[0x40], Some(0x40)),
    (-65, &[0xbf, 0x7f], None),
    (127, &[0xff, 0x00], None),
    (-127, &[0x81, 0x7f], None),
    (128, &[0x80, 0x01], None),
    (-128, &[0x80, 0x7f], None),
    (129, &[0x81, 0x01], None),
    (-129, &[0xff, 0x7e], None),
    (8_191, &[0xff, 0x3f], None),
    (8_192, &[0x80, 0xc0, 0x00], None),
    (-8_192, &[0x80, 0x40], None),
    (-8_193, &[0xff, 0xbf, 0x7f], None),
    (-123_456, &[0xc0, 0xbb, 0x78], None),
    // 2^62 - 1, 2^62, -2^62 and -2^62 - 1: the last numbers of nine bytes, and the first of ten
    (
        0x3fff_ffff_ffff_ffff,
        &[0xff, 0xff, 0xff, 0xff, 0xff, 0xff, 0xff, 0xff, 0x3f],
        None,
    ),
    (
        0x4000_0000_0000_0000,
        &[0x80, 0x80, 0x80, 0x80, 0x80, 0x80, 0x80, 0x80, 0xc0, 0x00],
        None,
    ),
    (
        -0x4000_0000_0000_0000,
        &[0x80, 0x80, 0x80, 0x80, 0x80, 0x80, 0x80, 0x80, 0x40],
        None,
    ),
    (
        -0x4000_0000_0000_0001,
        &[0xff, 0xff, 0xff, 0xff, 0xff, 0xff, 0xff, 0xff, 0xbf, 0x7f],
        None,
    ),
    (
        i64::MAX,
        &[0xff, 0xff, 0xff, 0xff, 0xff, 0xff, 0xff, 0xff, 0xff, 0x00],
        None,
    ),
    (
        i64::MIN,
        &[0x80, 0x80, 0x80, 0x80, 0x80, 0x80, 0x80, 0x80, 0x80, 0x7f],
        None,
    ),
];

#[test]
fn spells_signed_numbers(rt: HostRuntime) -> Result<(), Fail> {
    for &(number, spelling, byte) in SIGNED {
        assert!(rt; signed_byte(number) == byte, "at {number}");
        let mut out = Vec::new(rt.alloc());
        push_i(&mut out, number)?;
        assert!(rt; out.as_slice() == spelling, "at {number}");
        out.push(0x55)?;
        assert!(rt; read_i(&out) == Ok((number, spelling.len())), "at {number}");
    }
    Ok(())
}

// Bytes, and why they are refused as an unsigned number and as a signed one, if they are.
const REFUSED: &[(&[u8], Option<LebFault>, Option<LebFault>)] = &[
    (&[], Some(LebFault::Short), Some(LebFault::Short)),
    (&[0x80], Some(LebFault::Short), Some(LebFault::Short)),
    // one byte too many for 0 and 63
    (&[0x80, 0x00], Some(LebFault::Long), Some(LebFault::Long)),
    (&[0xbf, 0x00], Some(LebFault::Long), Some(LebFault::Long)),
    // for 127 and 16383 as unsigned
    (&[0xff, 0x00], Some(LebFault::Long), None),
    (&[0xff, 0xff, 0x00], Some(LebFault::Long), None),
    // for -1, -64, 8191 and -8192 as signed
    (&[0xff, 0x7f], None, Some(LebFault::Long)),
    (&[0xc0, 0x7f], None, Some(LebFault::Long)),
    (
        &[0xff, 0xbf, 0x00],
        Some(LebFault::Long),
        Some(LebFault::Long),
    ),
    (&[0x80, 0xc0, 0x7f], None, Some(LebFault::Long)),
    (&[0xff; 10], Some(LebFault::Large), Some(LebFault::Large)),
    (
        &[0x80, 0x80, 0x80, 0x80, 0x80, 0x80, 0x80, 0x80, 0x80, 0x00],
        Some(LebFault::Long),
        Some(LebFault::Long),
    ),
    (
        &[0x80, 0x80, 0x80, 0x80, 0x80, 0x80, 0x80, 0x80, 0x80, 0x02],
        Some(LebFault::Large),
        Some(LebFault::Large),
    ),
];

#[test]
fn refuses_what_is_no_shortest_number(rt: HostRuntime) {
    for &(bytes, unsigned, signed) in REFUSED {
        assert!(rt; read_u(bytes).err() == unsigned, "of {bytes:?}");
        assert!(rt; read_i(bytes).err() == signed, "of {bytes:?}");
    }
}
