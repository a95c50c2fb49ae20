//! Taking the numbers of values out of a cursor, by runs.
ghost use Rattle.std.specs.Prelude.{◌≡◌, ◌+◌, ◌≤◌, ◌^◌, ◌++◌, Some, None, length, take, drop, map, replicate, IfOk, OnOk, IfSome, IfNone};
ghost use Rattle.am_leb.specs.Leb.{uleb};
ghost use Rattle.am_values.specs.Cutting.{AreCut, widths};
ghost use Rattle.am_values.specs.Writing.{spelled};

use crate::cutting::past;
use am_leb::{push_u, unsigned_byte};
use am_runs::{RunWriter, UnsignedCursor, UnsignedItem};
use std::alloc::AllocError;

// Appends the number so many times, by way of its spelling.
pub fn put_alike(
    numbers: &mut RunWriter<UnsignedItem>,
    item: &mut Vec<u8>,
    number: u64,
    count: u64,
) -> Result<(), AllocError>
    requires { IfSome numbers.old (λ list. length list + count ≤ 2 ^ 32) }
    ensures ok { OnOk result (IfSome numbers.old (λ list. numbers.new ≡ Some (list ++ replicate count (Some (uleb number))))) }
    ensures failed { OnOk result (IfNone numbers.old (numbers.new ≡ None)) }
{
    if let Some(byte) = unsigned_byte(number) {
        if numbers.count_byte(byte, count) {
            return Ok(());
        }
    }
    item.clear();
    push_u(item, number)?;
    numbers.push_alike(Some(item.as_slice()), count)
}

// Appends the next n numbers, of which a null is the number of the null value, and gives the raw bytes behind their
// values.
pub fn taken<'a>(
    from: &mut UnsignedCursor<'_>,
    raw: &'a [u8],
    n: u64,
    numbers: &mut RunWriter<UnsignedItem>,
    item: &mut Vec<u8>,
) -> Result<&'a [u8], AllocError>
    requires cut { AreCut from.old raw.now }
    requires enough { n ≤ length from.old }
    requires room { IfSome numbers.old (λ list. length list + n ≤ 2 ^ 32) }
    ensures ok { OnOk result (IfSome numbers.old (λ list. numbers.new ≡ Some (list ++ take n (map spelled from.old)))) }
    ensures behind { OnOk result (from.new ≡ drop n from.old) }
    ensures raw { IfOk result (λ rest. rest.now ≡ drop (widths (take n from.old)) raw.now) }
{
    let mut rest = raw;
    let mut left = n;
    while left > 0 {
        match from.next_alike_within(left) {
            None => return Ok(rest),
            Some((number, count)) => {
                put_alike(numbers, item, number.unwrap_or(0), count)?;
                rest = past(number, count, rest);
                left -= count;
            }
        }
    }
    Ok(rest)
}
