//! The hash of a change.
use crate::byte_strings::compare_bytes;
use std::cmp::Ordering;
use std::hash;
use std::hash::Hasher;

/// A digest of SHA-256 (FIPS 180-4): the 32 bytes in the order in which the standard gives them. Hashes are
/// ordered byte by byte.
#[derive(Clone, Copy, Debug, PartialEq, Eq, PartialOrd)]
pub struct Hash(pub [u8; 32]);

impl Ord for Hash {
    ghost use Rattle.std.specs.Prelude.{refl};
    ghost use Rattle.std.specs.Ordering.{nat_cmp};
    ghost use Rattle.std.specs.Cmp.Lexicographic.{slice_cmp, lists_agrees, on_texts, texts_ties};

    ghost cmp = { λ a b. slice_cmp nat_cmp a.0 b.0 };

    ghost total = { on_texts (λ h. h.0) };

    ghost matches_partial_cmp = { λ a b. lists_agrees (λ _ _. refl) a.0 b.0 };

    ghost matches_eq = { λ a b. texts_ties a.0 b.0 };

    #[inline(always)]
    fn cmp(&self, other: &Hash) -> Ordering {
        compare_bytes(&self.0, &other.0)
    }
}

// The first bytes of a digest tell as much to a table as all of them. Hashes that others name needn't be digests: no table
// that hashes is to have them as keys.
impl hash::Hash for Hash {
    ghost use Rattle.std.proofs.Common.{rules};
    ghost use Rattle.std.specs.Cmp.Rules.{hashing};
    ghost use Rattle.std.specs.Prelude.{◌∷◌, [], slice_range};

    ghost hash_input = { λ h. slice_range h.0 0 8 ∷ [] };

    ghost respects_eq = { Prim.search (hashing, rules) };

    fn hash<H: Hasher>(&self, state: &mut H) {
        state.write(&self.0[0..8]);
    }
}
