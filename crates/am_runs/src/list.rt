//! A list of values, spelled at once.
ghost use Rattle.std.specs.Prelude.{◌≡◌, ◌<◌, ◌≤◌, ◌+◌, ◌-◌, ◌^◌, ◌++◌, ◌∷◌, [], ◌↔◌, ℕ, List, Option, Some, None, length, map, take, IfOk, OnOk, IsTrue};
ghost use Rattle.std.specs.Option.{option_map};
ghost use Rattle.am_runs.specs.Items.{IsItem};
ghost use Rattle.am_runs.specs.Canonical.{canonical_bytes};
ghost use Rattle.am_runs.specs.Pending.{pending_bytes};
ghost use Rattle.am_runs.specs.Listing.{spelled, IsRunBefore, Stands};

use crate::item::{Item, SignedItem, UnsignedItem};
use crate::pending::{PendingKind, push_header};
use am_leb::{push_i, push_u};
use std::alloc::AllocError;

/// A kind whose items spell values of this type.
pub trait Spells<V: Copy>: Item {
    /// The item of a value.
    ghost spelling: { V → List ℕ };

    /// What spells a value is an item.
    fn known(value: V)
        ensures { IsItem Self.end_of (spelling value) };

    /// Whether one item spells both.
    fn is_same(a: V, b: V) -> bool
        ensures { IsTrue result ↔ (spelling a ≡ spelling b) };

    /// Appends the item.
    fn spell(to: &mut Vec<u8>, value: V) -> Result<(), AllocError>
        ensures { OnOk result (to.new.items ≡ to.old.items ++ spelling value) };
}

impl Spells<u64> for UnsignedItem {
    ghost use Rattle.am_leb.specs.Leb.{uleb};

    ghost spelling = { uleb };

    fn known(_number: u64) {}

    fn is_same(a: u64, b: u64) -> bool {
        a == b
    }

    fn spell(to: &mut Vec<u8>, number: u64) -> Result<(), AllocError> {
        push_u(to, number)
    }
}

impl Spells<i64> for SignedItem {
    ghost use Rattle.am_leb.specs.Leb.{leb};

    ghost spelling = { leb };

    fn known(_number: i64) {}

    fn is_same(a: i64, b: i64) -> bool {
        a == b
    }

    fn spell(to: &mut Vec<u8>, number: i64) -> Result<(), AllocError> {
        push_i(to, number)
    }
}

// The run that is pending before a place of a list: so many nulls, so many of the value before the place, or so many
// values and that one, each unlike the one before it.
#[derive(Clone, Copy)]
struct PendingRun {
    kind: PendingKind,
    count: u64,
}

// Appends the item of a value. A null has none.
fn spell_one<V: Copy, K: Spells<V>>(out: &mut Vec<u8>, value: Option<V>) -> Result<(), AllocError>
    ensures { OnOk result (out.new.items ≡ out.old.items ++ spelled K.spelling (value ∷ [])) }
{
    match value {
        None => Ok(()),
        Some(value) => K::spell(out, value),
    }
}

// Appends the items of values. A null has none.
fn spell_all<V: Copy, K: Spells<V>>(
    out: &mut Vec<u8>,
    values: &[Option<V>],
) -> Result<(), AllocError>
    ensures { OnOk result (out.new.items ≡ out.old.items ++ spelled K.spelling values.now) }
{
    for value in values {
        spell_one::<V, K>(out, *value)?;
    }
    Ok(())
}

// Appends the run that is pending before the place.
fn close_at<V: Copy, K: Spells<V>>(
    out: &mut Vec<u8>,
    values: &[Option<V>],
    place: usize,
    pending: PendingRun,
) -> Result<(), AllocError>
    requires few { pending.count < 2 ^ 62 }
    requires inside { place ≤ length values.now }
    requires run { (front last : List ℕ) × IsRunBefore K.spelling values.now place pending.kind pending.count front last }
    ensures { OnOk result ((front last : List ℕ) → IsRunBefore K.spelling values.now place pending.kind pending.count front last → out.new.items ≡ out.old.items ++ pending_bytes pending.kind pending.count front last) }
{
    match pending.kind {
        PendingKind::Nothing => Ok(()),
        PendingKind::Nulls => {
            push_header(out, false, 0)?;
            push_u(out, pending.count)
        }
        PendingKind::Repeat => {
            push_header(out, false, pending.count)?;
            spell_all::<V, K>(out, &values[place - 1..place])
        }
        PendingKind::Literal => {
            push_header(out, true, pending.count)?;
            let start = place - 1 - pending.count as usize;
            spell_all::<V, K>(out, &values[start..place])
        }
    }
}

// Whether one item spells the value before the place and this one.
fn is_like_last<V: Copy, K: Spells<V>>(values: &[Option<V>], place: usize, value: V) -> bool
    requires some { 1 ≤ place }
    requires inside { place ≤ length values.now }
    ensures { (before : List (Option V)) (last : V) → take place values.now ≡ before ++ Some last ∷ [] → IsTrue result ↔ (K.spelling last ≡ K.spelling value) }
{
    match values[place - 1] {
        Some(last) => K::is_same(last, value),
        None => false,
    }
}

// Puts a null behind the pending run.
fn null_at<V: Copy, K: Spells<V>>(
    out: &mut Vec<u8>,
    values: &[Option<V>],
    place: usize,
    pending: PendingRun,
) -> Result<PendingRun, AllocError>
    requires few { length values.now ≤ 2 ^ 32 }
    requires inside { place < length values.now }
    requires entry { take (place + 1) values.now ≡ take place values.now ++ None ∷ [] }
    requires stands { (start : List ℕ) × Stands K.end_of K.spelling start out.old.items values.now place pending.kind pending.count }
    ensures { IfOk result (λ next. (start : List ℕ) → Stands K.end_of K.spelling start out.old.items values.now place pending.kind pending.count
        → Stands K.end_of K.spelling start out.new.items values.now (place + 1) next.kind next.count) }
{
    if let PendingKind::Nulls = pending.kind {
        return Ok(PendingRun {
            kind: pending.kind,
            count: pending.count + 1,
        });
    }
    close_at::<V, K>(out, values, place, pending)?;
    Ok(PendingRun {
        kind: PendingKind::Nulls,
        count: 1,
    })
}

// Begins a literal run behind the pending run.
fn begin_at<V: Copy, K: Spells<V>>(
    out: &mut Vec<u8>,
    values: &[Option<V>],
    place: usize,
    pending: PendingRun,
    value: V,
) -> Result<PendingRun, AllocError>
    requires few { length values.now ≤ 2 ^ 32 }
    requires inside { place < length values.now }
    requires entry { take (place + 1) values.now ≡ take place values.now ++ Some value ∷ [] }
    requires item { IsItem K.end_of (K.spelling value) }
    requires kind { pending.kind ≡ PendingKind.Literal → ⊥ }
    requires other { pending.kind ≡ PendingKind.Repeat → (before : List (Option V)) (last : V) → take place values.now ≡ before ++ Some last ∷ [] → K.spelling last ≡ K.spelling value → ⊥ }
    requires stands { (start : List ℕ) × Stands K.end_of K.spelling start out.old.items values.now place pending.kind pending.count }
    ensures { IfOk result (λ next. (start : List ℕ) → Stands K.end_of K.spelling start out.old.items values.now place pending.kind pending.count
        → Stands K.end_of K.spelling start out.new.items values.now (place + 1) next.kind next.count) }
{
    close_at::<V, K>(out, values, place, pending)?;
    Ok(PendingRun {
        kind: PendingKind::Literal,
        count: 0,
    })
}

// Puts the last value of a literal run once more behind it.
fn again_at<V: Copy, K: Spells<V>>(
    out: &mut Vec<u8>,
    values: &[Option<V>],
    place: usize,
    pending: PendingRun,
    value: V,
) -> Result<PendingRun, AllocError>
    requires few { length values.now ≤ 2 ^ 32 }
    requires inside { place < length values.now }
    requires entry { take (place + 1) values.now ≡ take place values.now ++ Some value ∷ [] }
    requires kind { pending.kind ≡ PendingKind.Literal }
    requires same { (before : List (Option V)) (last : V) → take place values.now ≡ before ++ Some last ∷ [] → K.spelling last ≡ K.spelling value }
    requires stands { (start : List ℕ) × Stands K.end_of K.spelling start out.old.items values.now place pending.kind pending.count }
    ensures { IfOk result (λ next. (start : List ℕ) → Stands K.end_of K.spelling start out.old.items values.now place pending.kind pending.count
        → Stands K.end_of K.spelling start out.new.items values.now (place + 1) next.kind next.count) }
{
    let next = PendingRun {
        kind: PendingKind::Repeat,
        count: 2,
    };
    if pending.count == 0 {
        return Ok(next);
    }
    push_header(out, true, pending.count - 1)?;
    let start = place - 1 - pending.count as usize;
    spell_all::<V, K>(out, &values[start..place - 1])?;
    Ok(next)
}

// Puts a value behind a literal run.
fn literal_at<V: Copy, K: Spells<V>>(
    out: &mut Vec<u8>,
    values: &[Option<V>],
    place: usize,
    pending: PendingRun,
    value: V,
) -> Result<PendingRun, AllocError>
    requires few { length values.now ≤ 2 ^ 32 }
    requires inside { place < length values.now }
    requires entry { take (place + 1) values.now ≡ take place values.now ++ Some value ∷ [] }
    requires item { IsItem K.end_of (K.spelling value) }
    requires kind { pending.kind ≡ PendingKind.Literal }
    requires stands { (start : List ℕ) × Stands K.end_of K.spelling start out.old.items values.now place pending.kind pending.count }
    ensures { IfOk result (λ next. (start : List ℕ) → Stands K.end_of K.spelling start out.old.items values.now place pending.kind pending.count
        → Stands K.end_of K.spelling start out.new.items values.now (place + 1) next.kind next.count) }
{
    if is_like_last::<V, K>(values, place, value) {
        return again_at::<V, K>(out, values, place, pending, value);
    }
    Ok(PendingRun {
        kind: pending.kind,
        count: pending.count + 1,
    })
}

// Puts a value behind a repeat.
fn repeat_at<V: Copy, K: Spells<V>>(
    out: &mut Vec<u8>,
    values: &[Option<V>],
    place: usize,
    pending: PendingRun,
    value: V,
) -> Result<PendingRun, AllocError>
    requires few { length values.now ≤ 2 ^ 32 }
    requires inside { place < length values.now }
    requires entry { take (place + 1) values.now ≡ take place values.now ++ Some value ∷ [] }
    requires item { IsItem K.end_of (K.spelling value) }
    requires kind { pending.kind ≡ PendingKind.Repeat }
    requires stands { (start : List ℕ) × Stands K.end_of K.spelling start out.old.items values.now place pending.kind pending.count }
    ensures { IfOk result (λ next. (start : List ℕ) → Stands K.end_of K.spelling start out.old.items values.now place pending.kind pending.count
        → Stands K.end_of K.spelling start out.new.items values.now (place + 1) next.kind next.count) }
{
    if is_like_last::<V, K>(values, place, value) {
        return Ok(PendingRun {
            kind: pending.kind,
            count: pending.count + 1,
        });
    }
    begin_at::<V, K>(out, values, place, pending, value)
}

// Puts the entry at the place behind the pending run.
#[inline(always)]
fn entry_at<V: Copy, K: Spells<V>>(
    out: &mut Vec<u8>,
    values: &[Option<V>],
    place: usize,
    pending: PendingRun,
) -> Result<PendingRun, AllocError>
    requires few { length values.now ≤ 2 ^ 32 }
    requires inside { place < length values.now }
    requires stands { (start : List ℕ) × Stands K.end_of K.spelling start out.old.items values.now place pending.kind pending.count }
    ensures { IfOk result (λ next. (start : List ℕ) → Stands K.end_of K.spelling start out.old.items values.now place pending.kind pending.count
        → Stands K.end_of K.spelling start out.new.items values.now (place + 1) next.kind next.count) }
{
    let Some(value) = values[place] else {
        return null_at::<V, K>(out, values, place, pending);
    };
    K::known(value);
    match pending.kind {
        PendingKind::Literal => literal_at::<V, K>(out, values, place, pending, value),
        PendingKind::Repeat => repeat_at::<V, K>(out, values, place, pending, value),
        _ => begin_at::<V, K>(out, values, place, pending, value),
    }
}

/// Appends the one canonical spelling of the values and nulls, which is no bytes for nulls alone. Each item is spelled once,
/// straight into the bytes. An error says that memory was wanted; what the bytes are then isn't said.
pub fn push_list<V: Copy, K: Spells<V>>(
    out: &mut Vec<u8>,
    values: &[Option<V>],
) -> Result<(), AllocError>
    requires { length values.now ≤ 2 ^ 32 }
    ensures { OnOk result (out.new.items ≡ out.old.items ++ canonical_bytes (map (option_map K.spelling) values.now)) }
{
    let start = out.len();
    let mut pending = PendingRun {
        kind: PendingKind::Nothing,
        count: 0,
    };
    for place in 0..values.len() {
        pending = entry_at::<V, K>(out, values, place, pending)?;
    }
    if let PendingKind::Nulls = pending.kind {
        if out.len() == start {
            return Ok(());
        }
    }
    close_at::<V, K>(out, values, values.len(), pending)
}
