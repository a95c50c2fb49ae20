//! The writers of the columns of change rows.
ghost use Rattle.std.specs.Prelude.{◌≡◌, ◌+◌, ◌≤◌, ◌<◌, ◌++◌, ◌^◌, Some, map, length, option_map, IfSome, OnOk};
ghost use Rattle.std.specs.List.{AllByRecursion};
ghost use Rattle.am_types.specs.Documents.{unless_empty};
ghost use Rattle.am_types.specs.Limits.{counter_end};
ghost use Rattle.am_fields.specs.Layout.{whole};
ghost use Rattle.am_doccols.specs.Conditions.{IsPlace};

use crate::lent::MetaFields;
use am_delta::DeltaWriter;
use am_fields::{IndexCursor, NumberWriter, TextWriter};
use am_values::ValueWriter;
use std::alloc::{AllocError, Global};

// The writers of all columns.
#[derive(Drop)]
pub struct MetaColumns {
    pub actor: NumberWriter,
    pub seq: DeltaWriter,
    pub max: DeltaWriter,
    pub time: DeltaWriter,
    pub message: TextWriter,
    pub lengths: NumberWriter,
    pub deps: DeltaWriter,
    pub extra: ValueWriter,
}

// The cell of a number.
pub fn number_in(number: u64) -> Option<i64>
    requires { number < counter_end }
    ensures { result ≡ whole number }
{
    Some(number as i64)
}

// The cell of the time of a change.
pub fn time_in(meta: MetaFields<'_>) -> Option<i64>
    ensures { result ≡ Some meta.entry.time }
{
    Some(meta.time)
}

// A message, unless it is empty.
pub fn message_in(text: &str) -> Option<&str>
    ensures { option_map (λ s. s.now) result ≡ unless_empty text.now }
{
    if text.is_empty() {
        return None;
    }
    Some(text)
}

// Appends places of change rows.
pub fn push_places(column: &mut DeltaWriter, places: &[u64]) -> Result<(), AllocError>
    requires room { IfSome column.old (λ xs. length xs + length places.now ≤ 2 ^ 32) }
    requires places { AllByRecursion IsPlace places.now }
    ensures { OnOk result (IfSome column.old (λ xs. column.new ≡ Some (xs ++ map whole places.now))) }
{
    for place in places {
        column.push(Some(*place as i64))?;
    }
    Ok(())
}

// Puts the places that a cursor lends into the list, instead of those that it held.
pub fn read_places(places: &mut Vec<u64>, from: IndexCursor<'_>) -> Result<(), AllocError>
    ensures { OnOk result (places.new.items ≡ from.entry) }
{
    places.clear();
    let mut rest = from;
    while let Some(place) = rest.next() {
        places.push(place)?;
    }
    Ok(())
}
