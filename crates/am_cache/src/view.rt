//! What a text shows.

use am_json::Form;
use am_types::{Hash, List};
use std::hash;
use std::hash::Hasher;

/// What a text shows: its form, and the heads of the part of a history that it is of. Two lists of heads are the same
/// where they have the same hashes in the same order, so a caller that wants one view for a set of heads gives them
/// distinct, in ascending order.
#[derive(Debug, Drop, PartialEq, Eq)]
pub struct View {
    /// What is shown of each slot.
    pub form: Form,
    /// The heads.
    pub heads: List<Hash>,
}

// The form is left out: at most two views share the heads.
impl hash::Hash for View {
    ghost use Rattle.std.specs.Hash as fed;
    ghost use Rattle.std.specs.Hash.{items_Alike, on_Alike, same_Alike, second_alike};
    ghost use Rattle.am_cache.specs.Deciding.{hash_Decides};

    ghost hash_input = { λ v. fed.slice ⟦<Hash as hash::Hash>⟧.hash_input v.heads };

    ghost respects_eq = { (second_alike _ (on_Alike (λ v. v.heads) (items_Alike (same_Alike ⟦<Hash as hash::Hash>⟧.hash_input hash_Decides)))).fed };

    fn hash<H: Hasher>(&self, state: &mut H) {
        self.heads.as_slice().hash(state);
    }
}
