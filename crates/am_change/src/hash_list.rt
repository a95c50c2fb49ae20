//! Lists of hashes, as the contents of a change have them: one behind another.
ghost use Rattle.std.specs.Prelude.{◌≡◌, ◌<◌, ◌^◌, ◌*◌, ◌++◌, ◌∷◌, ◌↔◌, [], ℕ, List, length, slice_get, IsTrue, IfSome, IfNone, IsSomeAnd};
ghost use Rattle.std.specs.List.{AllByRecursion};
ghost use Rattle.am_types.specs.declared.Hash.{Hash as AHash};
ghost use Rattle.am_types.specs.Order.{hash_cmp, Ascends};
ghost use Rattle.am_change.specs.Contents.{hashes_bytes};
ghost use Rattle.am_change.specs.Fronts.{Has32};
ghost use Rattle.am_change.specs.Building.{hashes_in};

use crate::copying::hash_in;
use crate::fine_parts::hashes_ascend;
use crate::numbers::hashes_at;
use am_types::Hash;
use std::marker::Model;

/// Hashes that stand one behind another in the contents of a chunk, as the dependencies of a change and the heads of a
/// document do (Automerge Binary Document Format, "Change Chunks", "Document Chunks"). Nothing is copied.
#[derive(Drop)]
pub struct HashList<'a> {
    bytes: &'a [u8],
    count: u64,
}

impl<'a> Model for HashList<'a> {
    ghost use Rattle.std.specs.Prelude.{List, length, ◌≡◌, ◌*◌};
    ghost use Rattle.am_types.specs.declared.Hash.{Hash};
    ghost use Rattle.am_change.specs.Building.{hashes_in};

    ghost Value = { List Hash };

    ghost view = { λ list. hashes_in list.count list.bytes.now };

    ghost invariant = { λ list. length list.bytes.now ≡ 32 * list.count };
}

impl<'a> HashList<'a> {
    // The hashes of which these are the bytes.
    pub(crate) fn over(bytes: &'a [u8], count: u64) -> HashList<'a>
        requires { length bytes.now ≡ 32 * count }
        ensures { result ≡ hashes_in count bytes.now }
    {
        HashList { bytes, count }
    }

    /// The hashes that stand first in the bytes behind their number, and the bytes behind them. None where the number and
    /// that many hashes don't stand there.
    pub fn read(bytes: &'a [u8]) -> Option<(HashList<'a>, &'a [u8])>
        ensures some { IfSome result (λ r. (bytes.now ≡ hashes_bytes r.0 ++ r.1.now) × AllByRecursion Has32 r.0 × (length r.0 < 2 ^ 64)) }
        ensures only { (hashes : List AHash) (rest : List ℕ) → AllByRecursion Has32 hashes → length hashes < 2 ^ 64
            → bytes.now ≡ hashes_bytes hashes ++ rest → IsSomeAnd result (λ r. (r.0 ≡ hashes) × (r.1.now ≡ rest)) }
    {
        let (count, hashes, rest) = hashes_at(bytes)?;
        Some((HashList::over(hashes, count), rest))
    }

    /// The same list again.
    pub fn again(&self) -> Self
        ensures { result ≡ self.now }
    {
        HashList {
            bytes: self.bytes,
            count: self.count,
        }
    }

    /// How many hashes there are.
    pub fn count(&self) -> u64
        ensures { result ≡ length self.now }
    {
        self.count
    }

    /// Whether each hash is below the next.
    pub fn are_ascending(&self) -> bool
        ensures { IsTrue result ↔ Ascends hash_cmp self.now }
    {
        hashes_ascend(self.bytes, self.count)
    }

    /// The hash at a place, counted from 0, or None where the list is shorter.
    pub fn get(&self, i: u64) -> Option<Hash>
        ensures { result ≡ slice_get self.now i }
    {
        if i >= self.count {
            return None;
        }
        let (_, rest) = self.bytes.split_at(i as usize * 32);
        let (first, _) = rest.split_at(32);
        Some(hash_in(first))
    }

    /// Takes the next hash off the list, or None at its end.
    pub fn next(&mut self) -> Option<Hash>
        ensures end { IfNone result ((self.old ≡ []) × (self.new ≡ [])) }
        ensures next { IfSome result (λ hash. self.old ≡ hash ∷ self.new) }
    {
        if self.count == 0 {
            return None;
        }
        let (first, rest) = self.bytes.split_at(32);
        self.bytes = rest;
        self.count -= 1;
        Some(hash_in(first))
    }
}
