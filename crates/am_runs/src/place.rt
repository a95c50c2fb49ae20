//! A place within the runs of a column, and the step to the next entry.
ghost use Rattle.std.specs.Prelude.{◌≡◌, ◌-◌, ◌<◌};
ghost use Rattle.std.specs.Option.{option_map, option_copied};
ghost use Rattle.am_leb.specs.Reading.{first_unsigned};
ghost use Rattle.am_runs.specs.Walking.{open_run, open_nulls, open_repeat, entry_by, step};
ghost use Rattle.am_runs.specs.Positions.{place_of};

use crate::item::Item;
use am_leb::{read_i, read_u};

#[derive(Clone, Copy, Debug, PartialEq, Eq)]
pub enum Kind {
    Repeat,
    Literal,
    Nulls,
}

/// A place within a run.
#[derive(Clone, Copy)]
pub struct Position<'a> {
    pub kind: Kind,
    pub count: u64,
    pub item: &'a [u8],
    pub rest: &'a [u8],
}

/// The run of nulls whose count begins the bytes.
#[inline(always)]
pub fn open_null_run<'a>(bytes: &'a [u8]) -> Option<Position<'a>>
    ensures { option_map place_of result ≡ open_nulls bytes.now (first_unsigned bytes.now) }
{
    match read_u(bytes) {
        Err(_) => None,
        Ok((0, _)) => None,
        Ok((count, len)) => Some(Position {
            kind: Kind::Nulls,
            count,
            item: &bytes[..0],
            rest: &bytes[len..],
        }),
    }
}

#[inline(always)]
fn open_repeat_run<'a, K: Item>(count: u64, bytes: &'a [u8]) -> Option<Position<'a>>
    ensures { option_map place_of result ≡ open_repeat count bytes.now (K.end_of bytes.now) }
{
    match K::end(bytes) {
        None => None,
        Some(len) => Some(Position {
            kind: Kind::Repeat,
            count,
            item: &bytes[..len],
            rest: &bytes[len..],
        }),
    }
}

#[inline(always)]
pub fn run_start<'a, K: Item>(bytes: &'a [u8]) -> Option<Position<'a>>
    ensures { option_map place_of result ≡ open_run K.end_of bytes.now }
{
    match read_i(bytes) {
        Err(_) => None,
        Ok((n, len)) => {
            let rest = &bytes[len..];
            if n == 0 {
                open_null_run(rest)
            } else if n > 0 {
                open_repeat_run::<K>(n as u64, rest)
            } else {
                Some(Position {
                    kind: Kind::Literal,
                    count: n.unsigned_abs(),
                    item: &bytes[..0],
                    rest,
                })
            }
        }
    }
}

#[inline(always)]
fn entry<'a, K: Item>(at: Position<'a>) -> Option<(Option<&'a [u8]>, Position<'a>)>
    requires { 0 < at.count }
    ensures { option_map (λ x. (option_copied x.0, place_of x.1)) result
        ≡ entry_by K.end_of at.entry.kind (at.entry.count - 1) at.entry.item.now at.entry.rest.now }
{
    let count = at.count - 1;
    match at.kind {
        Kind::Repeat => Some((Some(at.item), Position { count, ..at })),
        Kind::Nulls => Some((None, Position { count, ..at })),
        Kind::Literal => match K::end(at.rest) {
            None => None,
            Some(len) => Some((
                Some(&at.rest[..len]),
                Position {
                    kind: Kind::Literal,
                    count,
                    item: &at.rest[..0],
                    rest: &at.rest[len..],
                },
            )),
        },
    }
}

#[inline(always)]
pub fn stepped<'a, K: Item>(at: Position<'a>) -> Option<(Option<&'a [u8]>, Position<'a>)>
    ensures { option_map (λ x. (option_copied x.0, place_of x.1)) result
        ≡ step K.end_of (place_of at.entry) }
{
    if at.count > 0 {
        return entry::<K>(at);
    }
    match run_start::<K>(at.rest) {
        None => None,
        Some(at) => { if at.count > 0 { entry::<K>(at) } else { None } }
    }
}
