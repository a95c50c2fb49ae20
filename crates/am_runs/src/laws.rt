//! Laws of the two relations between bytes and lists.
ghost use Rattle.std.specs.Prelude.{◌≡◌, ℕ, ℤ, List, Option, length};
ghost use Rattle.am_runs.specs.Canonical.{Canon};
ghost use Rattle.am_runs.specs.Runs.{Spells};
ghost use Rattle.am_runs.specs.Typed.{JoinsUnsigned, JoinsSigned, JoinsTexts};

use crate::item::Item;

/// A canonical spelling of a list is a spelling of it.
pub fn canonical_spells<K: Item>()
    ensures { (bytes : List ℕ) (list : List (Option (List ℕ))) → Canon K.end_of bytes list → Spells K.end_of bytes list }
{}

/// Bytes spell at most one list of a given length.
pub fn one_spelled_list<K: Item>()
    ensures { (bytes : List ℕ) (xs ys : List (Option (List ℕ))) → Spells K.end_of bytes xs → Spells K.end_of bytes ys → length xs ≡ length ys → xs ≡ ys }
{}

/// Bytes join one list of unsigned numbers at most.
pub fn one_unsigned_list()
    ensures { (bytes : List ℕ) (xs ys : List (Option ℕ)) → JoinsUnsigned bytes xs → JoinsUnsigned bytes ys → xs ≡ ys }
{}

/// Bytes join one list of signed numbers at most.
pub fn one_signed_list()
    ensures { (bytes : List ℕ) (xs ys : List (Option ℤ)) → JoinsSigned bytes xs → JoinsSigned bytes ys → xs ≡ ys }
{}

/// Bytes join one list of texts at most.
pub fn one_text_list()
    ensures { (bytes : List ℕ) (xs ys : List (Option (List ℕ))) → JoinsTexts bytes xs → JoinsTexts bytes ys → xs ≡ ys }
{}
