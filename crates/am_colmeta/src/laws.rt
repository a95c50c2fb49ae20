//! What the layers above may rely on: bytes are one list at most, and a body is cut in one way.
ghost use Rattle.std.specs.Prelude.{◌≡◌, ◌++◌, ℕ, List, Result, length};
ghost use Rattle.am_colmeta.specs.Actors.{actors_bytes};
ghost use Rattle.am_colmeta.specs.Judgement.{AreCut, Judges};
ghost use Rattle.am_colmeta.specs.Metadata.{metadata, total, listing, body, not_empty, column_at, Ascend};
ghost use Rattle.am_colmeta.specs.declared.fault.ColumnFault.{ColumnFault};

/// No bytes begin with the metadata of two lists of columns.
pub fn one_list()
    ensures { (xs ys : List (ℕ × ℕ)) (r s : List ℕ) → metadata xs ++ r ≡ metadata ys ++ s → (xs ≡ ys) × (r ≡ s) }
{}

/// No bytes begin with two lists of actors.
pub fn one_actor_list()
    ensures { (xs ys : List (List ℕ)) (r s : List ℕ) → actors_bytes xs ++ r ≡ actors_bytes ys ++ s → (xs ≡ ys) × (r ≡ s) }
{}

/// A listing cuts a body in one way at most, and only where it fills it.
pub fn one_cut()
    ensures one { (listed : List (ℕ × ℕ)) (bytes : List ℕ) (xs ys : List (ℕ × List ℕ)) → AreCut listed bytes xs → AreCut listed bytes ys → xs ≡ ys }
    ensures fills { (listed : List (ℕ × ℕ)) (bytes : List ℕ) (columns : List (ℕ × List ℕ)) → AreCut listed bytes columns → total listed ≡ length bytes }
{}

/// Columns are judged in one way.
pub fn one_judgement()
    ensures { (listed : List (ℕ × ℕ)) (bytes known : List ℕ) (x y : Result (List (ℕ × List ℕ)) ColumnFault)
        → Judges listed bytes known x → Judges listed bytes known y → x ≡ y }
{}

/// A column that is left out since it is empty is found as it was, and so are all others.
pub fn empty_left_out()
    ensures found { (columns : List (ℕ × List ℕ)) (specification : ℕ) → Ascend (listing columns) → column_at (not_empty columns) specification ≡ column_at columns specification }
    ensures same_body { (columns : List (ℕ × List ℕ)) → body (not_empty columns) ≡ body columns }
    ensures ascend { (columns : List (ℕ × List ℕ)) → Ascend (listing columns) → Ascend (listing (not_empty columns)) }
{}
