//! How runs of numbers are read.
ghost use Rattle.std.specs.Prelude.{◌≡◌, ◌<◌, ◌∷◌, Some, map, IfSome, IsSome};
ghost use Rattle.std.specs.Option.{option_copied, option_map};
ghost use Rattle.am_runs.specs.Counters.{IsCounted, counted, entries_from};
ghost use Rattle.am_runs.specs.Items.{IsItem};
ghost use Rattle.am_runs.specs.Positions.{place_of};
ghost use Rattle.am_runs.specs.Walking.{open_run, open_repeat};

use crate::counters::Counters;
use crate::leb::Number;
use crate::place::{Kind, Position, open_null_run};
use am_leb::read_i;

// The number that an item spells.
#[inline(always)]
fn number_in<K: Number>(item: &[u8]) -> K::Value
    requires { IsItem K.end_of item.now }
    ensures { result ≡ K.value_of item.now }
{
    match K::first(item) {
        Some((n, _)) => n,
        None => unreachable!(),
    }
}

/// The number of an item, and null of null.
pub fn number_of<K: Number>(entry: Option<&[u8]>) -> Option<K::Value>
    requires { IfSome (option_copied entry) (IsItem K.end_of) }
    ensures { result ≡ option_map K.value_of (option_copied entry.entry) }
{
    match entry {
        None => None,
        Some(item) => Some(number_in::<K>(item)),
    }
}

/// The next number of the literal run that is being read. One of a single byte is read with no look at how many bytes there are.
#[inline(always)]
pub fn literal_number<'a, K: Number>(at: &mut Counters<'a>) -> Option<K::Value>
    requires held { IsCounted K.end_of at.old.copies at.old.literal at.old.left at.old.rest.now }
    requires literal { 0 < at.old.literal }
    ensures some { IsSome result }
    ensures held { IsCounted K.end_of at.new.copies at.new.literal at.new.left at.new.rest.now }
    ensures copies { at.new.copies ≡ at.old.copies }
    ensures next { IfSome result (λ n. map (option_map K.value_of) (entries_from K.end_of at.old.literal at.old.left at.old.rest.now)
        ≡ Some n ∷ map (option_map K.value_of) (entries_from K.end_of at.new.literal at.new.left at.new.rest.now)) }
{
    let rest = at.rest;
    if rest[0] < 128 {
        let n = K::low(rest);
        at.literal -= 1;
        at.rest = &rest[1..];
        return Some(n);
    }
    match K::first(rest) {
        None => None,
        Some((n, len)) => {
            at.literal -= 1;
            at.rest = &rest[len..];
            Some(n)
        }
    }
}

// The run of so many of one item, and the number that it spells.
#[inline(always)]
fn repeat_run<'a, K: Number>(count: u64, bytes: &'a [u8]) -> Option<(Position<'a>, K::Value)>
    ensures place { option_map (λ r. place_of r.0) result ≡ open_repeat count bytes.now (K.end_of bytes.now) }
    ensures value { IfSome result (λ r. r.1 ≡ K.value_of r.0.item.now) }
{
    match K::first(bytes) {
        None => None,
        Some((n, len)) => Some((
            Position {
                kind: Kind::Repeat,
                count,
                item: &bytes[..len],
                rest: &bytes[len..],
            },
            n,
        )),
    }
}

// The run that begins the bytes, and of a repeat the number that its item spells.
#[inline(always)]
fn number_run<'a, K: Number>(bytes: &'a [u8]) -> Option<(Position<'a>, Option<K::Value>)>
    ensures place { option_map (λ r. place_of r.0) result ≡ open_run K.end_of bytes.now }
    ensures value { IfSome result (λ r. r.0.kind ≡ Kind.Repeat → r.1 ≡ Some (K.value_of r.0.item.now)) }
{
    match read_i(bytes) {
        Err(_) => None,
        Ok((n, len)) => {
            let rest = &bytes[len..];
            if n == 0 {
                match open_null_run(rest) {
                    None => None,
                    Some(at) => Some((at, None)),
                }
            } else if n > 0 {
                match repeat_run::<K>(n as u64, rest) {
                    None => None,
                    Some((at, item)) => Some((at, Some(item))),
                }
            } else {
                Some((
                    Position {
                        kind: Kind::Literal,
                        count: n.unsigned_abs(),
                        item: &bytes[..0],
                        rest,
                    },
                    None,
                ))
            }
        }
    }
}

/// Opens the run behind, and takes its first entry.
#[inline(always)]
pub fn first_of_run<'a, K: Number>(
    at: &mut Counters<'a>,
    value: &mut Option<K::Value>,
) -> Option<Option<K::Value>>
    requires held { IsCounted K.end_of 0 0 at.old.left at.old.rest.now }
    requires some { 0 < at.old.left }
    ensures some { IsSome result }
    ensures held { IsCounted K.end_of at.new.copies at.new.literal at.new.left at.new.rest.now }
    ensures next { IfSome result (λ first. map (option_map K.value_of) (entries_from K.end_of 0 at.old.left at.old.rest.now)
        ≡ first ∷ counted K.value_of at.new.copies value.new (entries_from K.end_of at.new.literal at.new.left at.new.rest.now)) }
{
    match number_run::<K>(at.rest) {
        None => None,
        Some((run, item)) => {
            let left = at.left - run.count;
            let mut next = Counters {
                copies: 0,
                literal: 0,
                rest: run.rest,
                left,
            };
            match run.kind {
                Kind::Repeat => {
                    next.copies = run.count - 1;
                    *value = item;
                    *at = next;
                    Some(item)
                }
                Kind::Nulls => {
                    next.copies = run.count - 1;
                    *value = None;
                    *at = next;
                    Some(None)
                }
                Kind::Literal => {
                    next.literal = run.count;
                    *at = next;
                    match literal_number::<K>(at) {
                        None => None,
                        Some(n) => Some(Some(n)),
                    }
                }
            }
        }
    }
}
