//! Cutting the columns of rows out of the contents of a document.
ghost use Rattle.std.specs.Prelude.{◌≡◌, ◌++◌, ℕ, List, IfSome, IsSomeAnd};
ghost use Rattle.am_colmeta.specs.Metadata.{listing, body};
ghost use Rattle.am_colmeta.specs.Judgement.{AreCompressed};
ghost use Rattle.am_doc.specs.Spelling.{AreColumns};

use am_colmeta::{ColumnList, Columns};

// The columns that the metadata cut out of the front of the bytes, and the bytes behind them; None where these aren't
// columns among the known ones.
pub fn columns_at<'a>(
    list: &ColumnList<'a>,
    bytes: &'a [u8],
    known: &[u64],
) -> Option<(Columns<'a>, &'a [u8])>
    ensures are { IfSome result (λ r. AreColumns known.now r.0) }
    ensures listed { IfSome result (λ r. listing r.0 ≡ list.now) }
    ensures joined { IfSome result (λ r. bytes.now ≡ body r.0 ++ r.1.now) }
    ensures only { (columns : List (ℕ × List ℕ)) (rest : List ℕ) → (AreCompressed list.now → ⊥) → AreColumns known.now columns
        → listing columns ≡ list.now → bytes.now ≡ body columns ++ rest → IsSomeAnd result (λ r. (r.0 ≡ columns) × (r.1.now ≡ rest)) }
{
    let total = list.total();
    if total > bytes.len() as u128 {
        return None;
    }
    let (body, rest) = bytes.split_at(total as usize);
    match Columns::over(list.again(), body, known) {
        Ok(columns) => Some((columns, rest)),
        Err(_) => None,
    }
}
