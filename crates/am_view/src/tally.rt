//! What tells whether a row is shown, and what a counter stands at.
ghost use Rattle.std.specs.Prelude.{◌≡◌, ◌≤◌, ◌∷◌, ◌+ℤ◌, List, length, true, false};
ghost use Rattle.std.specs.List.{list_any};
ghost use Rattle.am_types.specs.declared.Row.{Row};
ghost use Rattle.am_types.specs.Views.{value_of};
ghost use Rattle.am_types.specs.Limits.{most_operations};
ghost use Rattle.am_view.specs.Borrowed.{coming};
ghost use Rattle.am_view.specs.Reads.{gives_entry, is_counter_row};
ghost use Rattle.am_view.specs.Seen.{seen_by};
ghost use Rattle.am_view.specs.Steps.{tally, walk};
ghost use Rattle.am_view.specs.Totals.{IsBounded};

use crate::ahead::Ahead;
use crate::asked::Asked;
use am_doccols::SuccCursor;
use am_types::{ValueRef, actions, kinds};

/// Whether one of the successors is covered. They are read as far as the first that is.
#[inline(always)]
pub fn is_any_covered<'a>(clock: &mut Asked<'a>, succs: &mut SuccCursor<'a>) -> bool
    ensures same { clock.new ≡ clock.old }
    ensures covered { result ≡ list_any (seen_by clock.old) succs.old }
    ensures few { length succs.new ≤ length succs.old }
{
    while let Some(succ) = succs.next() {
        if clock.covers(succ) {
            return true;
        }
    }
    false
}

// A total and one increment more. They are few enough for 128 bits.
fn sum(total: i128, more: i128) -> i128
    requires total { IsBounded most_operations total }
    requires more { IsBounded 1 more }
    ensures { result ≡ total +ℤ more }
{
    total + more
}

/// The first amount with what the covered successors add, which are sought ahead; None where one of them is no increment
/// and so removes the counter.
pub fn tallied<'a>(
    clock: &mut Asked<'a>,
    first: i128,
    succs: &mut SuccCursor<'a>,
    ahead: &mut Ahead<'a>,
) -> Option<i128>
    requires bounded { IsBounded 1 first }
    requires few { length succs.old ≤ most_operations }
    ensures same { clock.new ≡ clock.old }
    ensures total { result ≡ tally (seen_by clock.old) first succs.old (coming ahead.old) }
{
    let mut total = first;
    while let Some(id) = succs.next() {
        if clock.covers(id) {
            ahead.pass_below(id);
            match ahead.addend(id) {
                Some(more) => total = sum(total, more),
                None => return None,
            }
        }
    }
    Some(total)
}

/// Whether a row of this action sets a value or makes an object.
#[inline(always)]
pub fn gives_entry(action: u8) -> bool
    ensures { (row : Row) → row.action ≡ action → result ≡ gives_entry row }
{
    matches!(
        action,
        actions::MAKE_MAP
            | actions::SET
            | actions::MAKE_LIST
            | actions::MAKE_TEXT
            | actions::MAKE_TABLE
    )
}

/// Whether a row of this action and value sets a counter.
#[inline(always)]
pub fn is_counter(action: u8, value: ValueRef<'_>) -> bool
    ensures { (row : Row) → row.action ≡ action → row.value ≡ value_of value.entry → result ≡ is_counter_row row }
{
    action == actions::SET && value.kind == kinds::COUNTER
}

/// Whether nothing is shown of a row of this action and value with so many successors, whatever these are: it gives no
/// entry, or every id is covered, and so a successor that removed it.
#[inline(always)]
pub fn is_hidden(clock: &Asked<'_>, action: u8, value: ValueRef<'_>, count: u64) -> bool
    ensures hidden { result ≡ true → (row : Row) (rest : List Row) → row.action ≡ action → row.value ≡ value_of value.entry → length row.succs ≡ count → walk (seen_by clock.now) (row ∷ rest) ≡ walk (seen_by clock.now) rest }
    ensures entry { result ≡ false → (row : Row) → row.action ≡ action → gives_entry row ≡ true }
{
    if !gives_entry(action) {
        return true;
    }
    if count == 0 {
        return false;
    }
    if !clock.is_everything() {
        return false;
    }
    !is_counter(action, value)
}

/// Whether a covered successor removed a row of this action and value. They are asked one after another. Of a counter this
/// isn't asked, and its successors stay unread.
#[inline(always)]
pub fn is_removed<'a>(
    clock: &mut Asked<'a>,
    action: u8,
    value: ValueRef<'a>,
    succs: &mut SuccCursor<'a>,
) -> bool
    ensures same { clock.new ≡ clock.old }
    ensures few { length succs.new ≤ length succs.old }
    ensures removed { result ≡ true → (row : Row) (rest : List Row) → row.action ≡ action → row.value ≡ value_of value.entry → row.succs ≡ succs.old → walk (seen_by clock.old) (row ∷ rest) ≡ walk (seen_by clock.old) rest }
    ensures stays { result ≡ false → (row : Row) → row.action ≡ action → row.value ≡ value_of value.entry → row.succs ≡ succs.old → is_counter_row row ≡ false → list_any (seen_by clock.old) row.succs ≡ false }
    ensures unread { result ≡ false → (row : Row) → row.action ≡ action → row.value ≡ value_of value.entry → is_counter_row row ≡ true → succs.new ≡ succs.old }
{
    if is_counter(action, value) {
        return false;
    }
    is_any_covered(clock, succs)
}
