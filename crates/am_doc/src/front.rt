//! Reading what stands before the columns of a document.
ghost use Rattle.std.specs.Prelude.{◌≡◌, ◌++◌, ℕ, List, IfSome, IsSomeAnd};
ghost use Rattle.am_colmeta.specs.Metadata.{metadata, AreListed};

use am_change::HashList;
use am_colmeta::{ActorList, ColumnList};

// What stands before the columns of a document. Nothing is copied.
#[derive(Drop)]
pub struct FrontRef<'a> {
    pub actors: ActorList<'a>,
    pub heads: HashList<'a>,
    pub metas: ColumnList<'a>,
    pub rows: ColumnList<'a>,
}

// The two lists of column metadata that stand first, and the bytes behind them.
fn lists_at(bytes: &[u8]) -> Option<(ColumnList<'_>, ColumnList<'_>, &[u8])>
    ensures some { IfSome result (λ r. (bytes.now ≡ metadata r.0 ++ (metadata r.1 ++ r.2.now)) × AreListed r.0 × AreListed r.1) }
    ensures only { (metas rows : List (ℕ × ℕ)) (rest : List ℕ) → AreListed metas → AreListed rows
        → bytes.now ≡ metadata metas ++ (metadata rows ++ rest) → IsSomeAnd result (λ r. (r.0 ≡ metas) × (r.1 ≡ rows) × (r.2.now ≡ rest)) }
{
    let Ok((metas, size)) = ColumnList::read(bytes) else {
        return None;
    };
    let (_, rest) = bytes.split_at(size);
    let Ok((rows, size)) = ColumnList::read(rest) else {
        return None;
    };
    let (_, rest) = rest.split_at(size);
    Some((metas, rows, rest))
}

impl<'a> FrontRef<'a> {
    ghost use Rattle.std.specs.Prelude.{◌≡◌, ◌++◌, ℕ, List, IfSome, IsSomeAnd};
    ghost use Rattle.am_doc.specs.Fronts.{Front, front_bytes, IsFront};
    ghost use Rattle.am_doc.specs.Reading.{front_of};

    // What stands first in the contents, and the bytes behind it; None where no such parts stand there.
    pub fn read(bytes: &'a [u8]) -> Option<(FrontRef<'a>, &'a [u8])>
        ensures some { IfSome result (λ r. IsFront (front_of r.0) × (bytes.now ≡ front_bytes (front_of r.0) ++ r.1.now)) }
        ensures only { (front : Front) (rest : List ℕ) → IsFront front → bytes.now ≡ front_bytes front ++ rest
            → IsSomeAnd result (λ r. (front_of r.0 ≡ front) × (r.1.now ≡ rest)) }
    {
        let Ok((actors, size)) = ActorList::read(bytes) else {
            return None;
        };
        let (_, rest) = bytes.split_at(size);
        let (heads, rest) = HashList::read(rest)?;
        let (metas, rows, rest) = lists_at(rest)?;
        let front = FrontRef {
            actors,
            heads,
            metas,
            rows,
        };
        Some((front, rest))
    }
}
