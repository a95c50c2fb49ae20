//! A writer of the canonical spellings.
ghost use Rattle.std.specs.Prelude.{◌≡◌, ◌+◌, ◌<◌, ◌≤◌, ◌^◌, ◌++◌, ◌∷◌, [], ℕ, List, Some, None, Bool, length, take, drop, replicate, IfOk, IfSome, IfNone, OnOk, OnErr, IsErr, IsTrue, ◌↔◌};
ghost use Rattle.am_flags.specs.Flags.{CanonFlags, CanonMaybe, canonical_bytes, canonical_maybe_bytes, HoldsFlags};

use crate::cursor::FlagCursor;
use am_leb::push_u;
use am_types::Bytes;
use std::alloc::{AllocError, Global};
use std::marker::Model;

fn is_same(a: bool, b: bool) -> bool
    ensures { IsTrue result ↔ (a ≡ b) }
{
    if a { b } else { !b }
}

// Behind so many of the flag come some more of the next.
fn put(done: &mut Vec<u8>, count: u64, flag: bool, next: bool, more: u64) -> Result<u64, AllocError>
    requires some { 1 ≤ more }
    requires room { count + more ≤ 2 ^ 32 }
    ensures ok { IfOk result (λ now. (list : List Bool) → HoldsFlags done.old.items flag count list → HoldsFlags done.new.items next now (list ++ replicate more next)) }
    ensures size { IfOk result (λ now. now ≤ count + more) }
{
    if is_same(next, flag) {
        return Ok(count + more);
    }
    push_u(done, count)?;
    Ok(more)
}

// Writes the pending count, if there is one.
fn ended(done: Vec<u8>, count: u64) -> Result<Vec<u8>, AllocError>
    requires { count < 2 ^ 63 }
    ensures { IfOk result (λ bytes. (flag : Bool) (list : List Bool) → HoldsFlags done.items flag count list → CanonFlags bytes.items list) }
{
    if count == 0 {
        return Ok(done);
    }
    let mut done = done;
    push_u(&mut done, count)?;
    Ok(done)
}

/// Writes the flags of a column as the lengths of blocks of equal ones. Once memory was wanted, it is wanted from then on.
#[derive(Drop)]
pub struct FlagWriter {
    done: Vec<u8>,
    flag: bool,
    count: u64,
    failed: bool,
}

impl Model for FlagWriter {
    ghost use Rattle.std.specs.Prelude.{List, Option, Some, None, Bool, if◌then◌else◌};

    ghost Value = { Option (List Bool) };

    ghost use Rattle.am_flags.specs.Flags.{flags_written, IsWriting};

    ghost view = { λ a. if a.failed then None else Some (flags_written a.done.items a.flag a.count) };

    ghost invariant = { λ a. IsWriting a.failed a.done.items a.flag a.count };
}

impl FlagWriter {
    /// A writer of no flags, which takes its memory from `alloc`.
    pub fn new(alloc: Global) -> Self
        ensures { result ≡ Some [] }
    {
        FlagWriter {
            done: Vec::new(alloc),
            flag: false,
            count: 0,
            failed: false,
        }
    }

    /// Appends a flag. An error says that memory was wanted; the writer is of no use then.
    pub fn push(&mut self, flag: bool) -> Result<(), AllocError>
        requires room { IfSome self.old (λ list. length list < 2 ^ 32) }
        ensures failed { IfNone self.old ((self.new ≡ None) × IsErr result) }
        ensures ok { OnOk result (IfSome self.old (λ list. self.new ≡ Some (list ++ flag ∷ []))) }
        ensures err { OnErr result (self.new ≡ None) }
    {
        self.push_alike(flag, 1)
    }

    /// Appends the flag so many times, as that many pushes, in one step.
    pub fn push_alike(&mut self, flag: bool, count: u64) -> Result<(), AllocError>
        requires room { IfSome self.old (λ list. length list + count ≤ 2 ^ 32) }
        ensures failed { IfNone self.old ((self.new ≡ None) × IsErr result) }
        ensures ok { OnOk result (IfSome self.old (λ list. self.new ≡ Some (list ++ replicate count flag))) }
        ensures err { OnErr result (self.new ≡ None) }
    {
        if self.failed {
            return Err(AllocError);
        }
        if count == 0 {
            return Ok(());
        }
        self.failed = true;
        let count = put(&mut self.done, self.count, self.flag, flag, count)?;
        self.count = count;
        self.flag = flag;
        self.failed = false;
        Ok(())
    }

    /// Takes the next n flags out of the cursor, as that many pushes. A block of equal flags costs two steps at most,
    /// however many it has.
    pub fn take(&mut self, from: &mut FlagCursor<'_>, n: u64) -> Result<(), AllocError>
        requires room { IfSome self.old (λ list. length list + n ≤ 2 ^ 32) }
        requires enough { n ≤ length from.old }
        ensures failed { IfNone self.old (self.new ≡ None) }
        ensures ok { OnOk result (IfSome self.old (λ list. self.new ≡ Some (list ++ take n from.old))) }
        ensures behind { OnOk result (from.new ≡ drop n from.old) }
        ensures err { OnErr result (self.new ≡ None) }
    {
        let mut left = n;
        while left > 0 {
            match from.next_alike_within(left) {
                None => return Ok(()),
                Some((flag, count)) => {
                    self.push_alike(flag, count)?;
                    left -= count;
                }
            }
        }
        Ok(())
    }

    /// The canonical spelling, also where all flags are false. An error says that memory was wanted, now or before.
    pub fn finish_plain(self) -> Result<Bytes, AllocError>
        ensures failed { IfNone self (IsErr result) }
        ensures ok { IfOk result (λ bytes. IfSome self (CanonFlags bytes)) }
    {
        if self.failed {
            return Err(AllocError);
        }
        Ok(Bytes::from(ended(self.done, self.count)?))
    }

    /// The canonical spelling, which is no bytes where all flags are false. An error says that memory was wanted, now or
    /// before.
    pub fn finish_maybe(self) -> Result<Bytes, AllocError>
        ensures failed { IfNone self (IsErr result) }
        ensures ok { IfOk result (λ bytes. IfSome self (CanonMaybe bytes)) }
    {
        if self.failed {
            return Err(AllocError);
        }
        if self.done.is_empty() {
            return Ok(Bytes::from(self.done));
        }
        Ok(Bytes::from(ended(self.done, self.count)?))
    }
}

/// Each list of flags has exactly one canonical spelling.
pub fn one_canonical_spelling()
    ensures { (flags : List Bool) (bytes : List ℕ) → length flags ≤ 2 ^ 32 → (CanonFlags bytes flags ↔ (bytes ≡ canonical_bytes flags)) }
{}

/// And exactly one where falses alone are no bytes.
pub fn one_canonical_maybe()
    ensures { (flags : List Bool) (bytes : List ℕ) → length flags ≤ 2 ^ 32 → (CanonMaybe bytes flags ↔ (bytes ≡ canonical_maybe_bytes flags)) }
{}
