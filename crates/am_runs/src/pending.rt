//! The run that a writer has not written yet.
ghost use Rattle.std.specs.Prelude.{◌≡◌, ◌+◌, ◌<◌, ◌≤◌, ◌^◌, ◌++◌, ◌∷◌, [], ◌↔◌, ℕ, List, Option, Some, None, length, map, IfOk, IfSome, OnOk, IsTrue};
ghost use Rattle.std.specs.Option.{option_copied};
ghost use Rattle.am_leb.specs.Leb.{leb};
ghost use Rattle.am_leb.specs.Reading.{from_magnitude};
ghost use Rattle.am_runs.specs.Apart.{AreApart};
ghost use Rattle.am_runs.specs.Items.{IsItem};
ghost use Rattle.am_runs.specs.Canonical.{Canon};
ghost use Rattle.am_runs.specs.Pending.{pending_bytes, Holds, IsAlike};

use crate::apart::{Apart, found_apart};
use crate::item::Item;
use crate::kept::KeptItems;
use am_leb::{push_i, push_u};
use am_types::same_bytes;
use std::alloc::AllocError;

#[derive(Clone, Copy, Debug, PartialEq, Eq)]
pub enum PendingKind {
    Nothing,
    Nulls,
    Repeat,
    Literal,
}

#[derive(Drop)]
pub struct Pending {
    pub kind: PendingKind,
    pub count: u64,
    pub kept: KeptItems,
}

// Appends a run's number: `count`, of a literal run -1 - `count`.
pub fn push_header(out: &mut Vec<u8>, literal: bool, count: u64) -> Result<(), AllocError>
    requires { count < 2 ^ 63 }
    ensures { OnOk result (out.new.items ≡ out.old.items ++ leb (from_magnitude literal count)) }
{
    if literal {
        push_i(out, -1 - count as i64)
    } else {
        push_i(out, count as i64)
    }
}

// Writes the pending run.
fn close(done: &mut Vec<u8>, p: &Pending) -> Result<(), AllocError>
    requires { p.now.count < 2 ^ 62 }
    ensures { OnOk result (done.new.items ≡ done.old.items ++ pending_bytes p.now.kind p.now.count p.now.kept.front p.now.kept.last) }
{
    match p.kind {
        PendingKind::Nothing => Ok(()),
        PendingKind::Nulls => {
            push_header(done, false, 0)?;
            push_u(done, p.count)
        }
        PendingKind::Repeat => {
            push_header(done, false, p.count)?;
            done.extend_from_slice(p.kept.last())
        }
        PendingKind::Literal => {
            push_header(done, true, p.count)?;
            done.extend_from_slice(p.kept.all())
        }
    }
}

fn put_null<K: Item>(done: &mut Vec<u8>, p: &mut Pending) -> Result<(), AllocError>
    requires { p.old.count < 2 ^ 62 }
    ensures { OnOk result ((list : List (Option (List ℕ))) → Holds K.end_of done.old.items p.old.kind p.old.count p.old.kept.front p.old.kept.last list
        → Holds K.end_of done.new.items p.new.kind p.new.count p.new.kept.front p.new.kept.last (list ++ None ∷ [])) }
{
    match p.kind {
        PendingKind::Nulls => {
            p.count += 1;
            Ok(())
        }
        _ => {
            close(done, p)?;
            p.kind = PendingKind::Nulls;
            p.count = 1;
            Ok(())
        }
    }
}

#[inline(always)]
pub fn is_same(a: &[u8], b: &[u8]) -> bool
    ensures { IsTrue result ↔ (a.now ≡ b.now) }
{
    same_bytes(a, b)
}

// Begins a literal run with the item.
fn open_literal<K: Item>(done: &mut Vec<u8>, p: &mut Pending, item: &[u8]) -> Result<(), AllocError>
    requires item { IsItem K.end_of item.now }
    requires room { p.old.count < 2 ^ 62 }
    requires kind { p.old.kind ≡ PendingKind.Literal → ⊥ }
    requires other { p.old.kind ≡ PendingKind.Repeat → p.old.kept.last ≡ item.now → ⊥ }
    ensures { OnOk result ((list : List (Option (List ℕ))) → Holds K.end_of done.old.items p.old.kind p.old.count p.old.kept.front p.old.kept.last list
        → Holds K.end_of done.new.items p.new.kind p.new.count p.new.kept.front p.new.kept.last (list ++ Some item.now ∷ [])) }
{
    close(done, p)?;
    p.kind = PendingKind::Literal;
    p.count = 0;
    p.kept.begin(item)?;
    Ok(())
}

// Puts an item that equals the last one behind a literal run.
fn split_literal<K: Item>(done: &mut Vec<u8>, p: &mut Pending) -> Result<(), AllocError>
    requires room { p.old.count < 2 ^ 62 }
    requires kind { p.old.kind ≡ PendingKind.Literal }
    ensures { OnOk result ((list : List (Option (List ℕ))) → Holds K.end_of done.old.items p.old.kind p.old.count p.old.kept.front p.old.kept.last list
        → Holds K.end_of done.new.items p.new.kind p.new.count p.new.kept.front p.new.kept.last (list ++ Some p.old.kept.last ∷ [])) }
{
    if p.count == 0 {
        p.kind = PendingKind::Repeat;
        p.count = 2;
        return Ok(());
    }
    push_header(done, true, p.count - 1)?;
    done.extend_from_slice(p.kept.front())?;
    p.kind = PendingKind::Repeat;
    p.count = 2;
    Ok(())
}

fn extend_literal<K: Item>(p: &mut Pending, item: &[u8], done: &Vec<u8>) -> Result<(), AllocError>
    requires item { IsItem K.end_of item.now }
    requires room { p.old.count < 2 ^ 62 }
    requires kind { p.old.kind ≡ PendingKind.Literal }
    requires other { p.old.kept.last ≡ item.now → ⊥ }
    ensures { OnOk result ((list : List (Option (List ℕ))) → Holds K.end_of done.now.items p.old.kind p.old.count p.old.kept.front p.old.kept.last list
        → Holds K.end_of done.now.items p.new.kind p.new.count p.new.kept.front p.new.kept.last (list ++ Some item.now ∷ [])) }
{
    p.kept.push(item)?;
    p.count += 1;
    Ok(())
}

fn put_item<K: Item>(done: &mut Vec<u8>, p: &mut Pending, item: &[u8]) -> Result<(), AllocError>
    requires item { IsItem K.end_of item.now }
    requires room { p.old.count < 2 ^ 62 }
    ensures { OnOk result ((list : List (Option (List ℕ))) → Holds K.end_of done.old.items p.old.kind p.old.count p.old.kept.front p.old.kept.last list
        → Holds K.end_of done.new.items p.new.kind p.new.count p.new.kept.front p.new.kept.last (list ++ Some item.now ∷ [])) }
{
    match p.kind {
        PendingKind::Literal => {
            if is_same(p.kept.last(), item) {
                split_literal::<K>(done, p)
            } else {
                extend_literal::<K>(p, item, done)
            }
        }
        PendingKind::Repeat => {
            if is_same(p.kept.last(), item) {
                p.count += 1;
                Ok(())
            } else {
                open_literal::<K>(done, p, item)
            }
        }
        _ => open_literal::<K>(done, p, item),
    }
}

pub fn put<K: Item>(
    done: &mut Vec<u8>,
    p: &mut Pending,
    entry: Option<&[u8]>,
) -> Result<(), AllocError>
    requires item { IfSome (option_copied entry) (IsItem K.end_of) }
    requires room { p.old.count < 2 ^ 62 }
    ensures { OnOk result ((list : List (Option (List ℕ))) → Holds K.end_of done.old.items p.old.kind p.old.count p.old.kept.front p.old.kept.last list
        → Holds K.end_of done.new.items p.new.kind p.new.count p.new.kept.front p.new.kept.last (list ++ option_copied entry.entry ∷ [])) }
{
    match entry {
        None => put_null::<K>(done, p),
        Some(item) => put_item::<K>(done, p, item),
    }
}

/// Whether the pending run has no entries but this one, and may have more of it.
pub fn is_alike(p: &Pending, entry: Option<&[u8]>) -> bool
    ensures { IsTrue result → IsAlike p.now.kind p.now.kept.last (option_copied entry.entry) }
{
    match entry {
        None => match p.kind {
            PendingKind::Nulls => true,
            _ => false,
        },
        Some(item) => match p.kind {
            PendingKind::Repeat => is_same(p.kept.last(), item),
            _ => false,
        },
    }
}

/// Whether the pending run has no entries but the item of this one byte, and may have more of it.
#[inline(always)]
pub fn is_byte(p: &Pending, byte: u8) -> bool
    ensures { IsTrue result → IsAlike p.now.kind p.now.kept.last (Some (byte ∷ [])) }
{
    match p.kind {
        PendingKind::Repeat => p.kept.is_byte(byte),
        _ => false,
    }
}

/// The items that begin the bytes, at most so many, as far as each is unlike the one before it, where a literal run is
/// pending and the first is unlike its last.
pub fn apart_from<'a, K: Item>(p: &Pending, bytes: &'a [u8], most: u64) -> Option<Apart<'a>>
    requires { 0 < most }
    ensures { IfSome result (λ r. (p.now.kind ≡ PendingKind.Literal) × (r.count ≤ most)
        × ((start : List (List ℕ)) × AreApart K.end_of p.now.kept.last start r.count r.size r.last.now bytes.now r.rest.now)) }
{
    match p.kind {
        PendingKind::Literal => found_apart::<K>(p.kept.last(), bytes, most),
        _ => None,
    }
}

/// Puts these items of the bytes behind a literal run.
pub fn extend_apart<K: Item>(
    p: &mut Pending,
    found: Apart<'_>,
    bytes: &[u8],
    done: &Vec<u8>,
) -> Result<(), AllocError>
    requires room { p.old.count + found.count < 2 ^ 62 }
    requires kind { p.old.kind ≡ PendingKind.Literal }
    requires apart { (start : List (List ℕ)) × AreApart K.end_of p.old.kept.last start found.count found.size found.last.now bytes.now found.rest.now }
    ensures { OnOk result ((start : List (List ℕ)) (list : List (Option (List ℕ))) → AreApart K.end_of p.old.kept.last start found.entry.count found.entry.size found.entry.last.now bytes.now found.entry.rest.now
        → Holds K.end_of done.now.items p.old.kind p.old.count p.old.kept.front p.old.kept.last list
        → Holds K.end_of done.now.items p.new.kind p.new.count p.new.kept.front p.new.kept.last (list ++ map Some (start ++ found.entry.last.now ∷ []))) }
{
    p.kept
        .extend(&bytes[..found.size + found.last.len()], found.size)?;
    p.count += found.count;
    Ok(())
}

pub fn ended<K: Item>(done: Vec<u8>, pending: Pending) -> Result<Vec<u8>, AllocError>
    requires { pending.count < 2 ^ 62 }
    ensures { IfOk result (λ bytes. (list : List (Option (List ℕ))) → length list < 2 ^ 63
        → Holds K.end_of done.items pending.kind pending.count pending.kept.front pending.kept.last list → Canon K.end_of bytes.items list) }
{
    let mut done = done;
    if let PendingKind::Nulls = pending.kind {
        if done.is_empty() {
            return Ok(done);
        }
    }
    close(&mut done, &pending)?;
    Ok(done)
}
