//! What the layers above may rely on. Each function does nothing; its contract is the law.
ghost use Rattle.std.specs.Prelude.{◌≡◌, ◌≢◌, ◌∷◌, ◌<◌, ◌≤◌, ◌^◌, ◌↔◌, ℕ, List, All, Contains, length};
ghost use Rattle.std.specs.List.{flat_map};
ghost use Rattle.am_types.specs.declared.Op.{Op};
ghost use Rattle.am_types.specs.Fine.{FineOp, pred_count};
ghost use Rattle.am_types.specs.Order.{bytes_cmp, Ascends};
ghost use Rattle.am_types.specs.Limits.{most_operations};
ghost use Rattle.am_colmeta.specs.Metadata.{body};
ghost use Rattle.am_opcols.specs.Columns.{SpellsOps};
ghost use Rattle.am_opcols.specs.Others.{actors_of, others};
ghost use Rattle.am_opcols.specs.Writing.{written_columns};

/// Columns spell one list of operations at most.
pub fn one_list()
    ensures { (actors : List (List ℕ)) (columns : List (ℕ × List ℕ)) (xs ys : List Op) → SpellsOps actors columns xs → SpellsOps actors columns ys → xs ≡ ys }
{}

/// The canonical columns of fine operations spell them. The length of the columns fits 64 bits, as all bytes that a
/// program has do.
pub fn canonical_columns_spell()
    ensures { (author : List ℕ) (ops : List Op) → All FineOp ops → length ops ≤ most_operations → pred_count ops ≤ most_operations → length (body (written_columns author ops)) < 2 ^ 64
        → SpellsOps (author ∷ others author ops) (written_columns author ops) ops }
{}

/// The other actors of a change are just those that its operations name, without its author, and each is below the
/// next.
pub fn others_are_named()
    ensures ascend { (author : List ℕ) (ops : List Op) → Ascends bytes_cmp (others author ops) }
    ensures members { (author actor : List ℕ) (ops : List Op) → Contains (others author ops) actor ↔ (Contains (flat_map actors_of ops) actor × (actor ≢ author)) }
{}
