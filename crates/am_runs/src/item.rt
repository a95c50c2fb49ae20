//! Kinds of items, each known by where its spellings end: numbers in their shortest LEB128, and texts behind their length.
ghost use Rattle.std.specs.Prelude.{◌≡◌, ◌<◌, ◌≤◌, ◌^◌, ◌↔◌, ℕ, List, Option, length, Some, IfSome, IsUtf8, FitsSigned, ℤ};
ghost use Rattle.std.specs.Int.{w64};
ghost use Rattle.am_leb.specs.Leb.{uleb, leb};
ghost use Rattle.am_runs.specs.Walking.{behind_items};
ghost use Rattle.am_runs.specs.Items.{ReadsItems, IsItem, unsigned_end, signed_end, text_end, text_spelling};

use crate::leb::{Number, Signed, Unsigned};
use crate::skim::skimmed;
use crate::value::text_at;
use std::marker::PhantomData;

/// A kind of item, known by where its spellings end.
pub trait Item {
    /// The length of the item that begins the bytes; None where none does.
    ghost end_of: { List ℕ → Option ℕ };

    /// How many bytes the item takes that begins the bytes; nothing where none does.
    fn end(bytes: &[u8]) -> Option<usize>
        ensures exact { result ≡ end_of bytes.now }
        ensures within { IfSome result (λ n. n ≤ length bytes.now) };

    /// The bytes behind the first items, `count` of them, where that is seen without reading each. It may always give up.
    fn skim<'a>(count: u64, bytes: &'a [u8]) -> Option<&'a [u8]>
        ensures skimmed { IfSome result (λ rest. behind_items end_of count bytes.now ≡ Some rest.now) }
    {
        None
    }

    /// What is found is an item, and an item is found again whatever follows it.
    ghost reads: { ReadsItems end_of };
}

/// The numbers of a kind.
pub struct NumberItem<N> {
    of: PhantomData<N>,
}

/// Numbers below 2^64, each in its shortest LEB128.
pub type UnsignedItem = NumberItem<Unsigned>;

/// Numbers from -2^63 up to 2^63 - 1, each in its shortest signed LEB128.
pub type SignedItem = NumberItem<Signed>;

impl<N: Number> Item for NumberItem<N> {
    ghost end_of = { N.end_of };

    ghost reads = { N.reads };

    #[inline(always)]
    fn end(bytes: &[u8]) -> Option<usize> {
        match N::first(bytes) {
            Some((_, len)) => Some(len),
            None => None,
        }
    }

    fn skim<'a>(count: u64, bytes: &'a [u8]) -> Option<&'a [u8]> {
        skimmed::<N>(count, bytes)
    }
}

/// Texts in UTF-8, each behind its length in bytes.
pub struct TextItem;

impl Item for TextItem {
    ghost use Rattle.am_runs.specs.Items.{text_end};
    ghost use Rattle.am_runs.specs.ItemLaws.{text_reads};

    ghost end_of = { text_end };

    ghost reads = { text_reads };

    #[inline(always)]
    fn end(bytes: &[u8]) -> Option<usize> {
        match text_at(bytes) {
            Some((_, len)) => Some(len),
            None => None,
        }
    }
}

/// An unsigned item is the shortest spelling of a number of 64 bits.
pub fn unsigned_items(bytes: &[u8])
    ensures { IsItem unsigned_end bytes.now ↔ ((n : ℕ) × (n < 2 ^ 64) × (bytes.now ≡ uleb n)) }
{}

/// A signed item is the shortest spelling of a signed number of 64 bits.
pub fn signed_items(bytes: &[u8])
    ensures { IsItem signed_end bytes.now ↔ ((z : ℤ) × FitsSigned w64 z × (bytes.now ≡ leb z)) }
{}

/// An item of text is its length and that much UTF-8.
pub fn text_items(bytes: &[u8])
    ensures { IsItem text_end bytes.now ↔ ((text : List ℕ) × IsUtf8 text × (length text < 2 ^ 64) × (bytes.now ≡ text_spelling text)) }
{}
