//! Reading what stands before the columns of a change.
ghost use Rattle.std.specs.Prelude.{◌≡◌, ◌<◌, ◌^◌, ◌*◌, ◌++◌, ℕ, ℤ, List, length, IfSome, IsSomeAnd, FitsSigned};
ghost use Rattle.std.specs.Int.{w64};
ghost use Rattle.am_leb.specs.Leb.{uleb, leb};
ghost use Rattle.am_colmeta.specs.Actors.{actors_bytes, AreActors};
ghost use Rattle.am_colmeta.specs.Metadata.{metadata, AreListed};

use crate::numbers::{hashes_at, number_at, prefixed_at, signed_at};
use am_colmeta::{ActorList, ColumnList};

// What stands before the columns of a change. Nothing is copied.
#[derive(Drop)]
pub struct FrontRef<'a> {
    // How many dependencies there are, and their bytes.
    pub count: u64,
    pub hashes: &'a [u8],
    pub actor: &'a [u8],
    pub seq: u64,
    pub start: u64,
    pub time: i64,
    pub message: &'a [u8],
    pub others: ActorList<'a>,
    pub listed: ColumnList<'a>,
}

// The numbers that stand first: the place of the change, the counter of its first operation, and the time.
fn stamps_at(bytes: &[u8]) -> Option<(u64, u64, i64, &[u8])>
    ensures some { IfSome result (λ r. (bytes.now ≡ uleb r.0 ++ (uleb r.1 ++ (leb r.2 ++ r.3.now))) × (r.0 < 2 ^ 64) × (r.1 < 2 ^ 64) × FitsSigned w64 r.2) }
    ensures only { (seq start : ℕ) (time : ℤ) (rest : List ℕ) → seq < 2 ^ 64 → start < 2 ^ 64 → FitsSigned w64 time
        → bytes.now ≡ uleb seq ++ (uleb start ++ (leb time ++ rest)) → IsSomeAnd result (λ r. (r.0 ≡ seq) × (r.1 ≡ start) × (r.2 ≡ time) × (r.3.now ≡ rest)) }
{
    let (seq, rest) = number_at(bytes)?;
    let (start, rest) = number_at(rest)?;
    let (time, rest) = signed_at(rest)?;
    Some((seq, start, time, rest))
}

// The actors and the column metadata that stand first.
fn lists_at(bytes: &[u8]) -> Option<(ActorList<'_>, ColumnList<'_>, &[u8])>
    ensures some { IfSome result (λ r. (bytes.now ≡ actors_bytes r.0 ++ (metadata r.1 ++ r.2.now)) × AreActors r.0 × AreListed r.1) }
    ensures only { (others : List (List ℕ)) (listed : List (ℕ × ℕ)) (rest : List ℕ) → AreActors others → AreListed listed
        → bytes.now ≡ actors_bytes others ++ (metadata listed ++ rest) → IsSomeAnd result (λ r. (r.0 ≡ others) × (r.1 ≡ listed) × (r.2.now ≡ rest)) }
{
    let Ok((others, size)) = ActorList::read(bytes) else {
        return None;
    };
    let (_, rest) = bytes.split_at(size);
    let Ok((listed, size)) = ColumnList::read(rest) else {
        return None;
    };
    let (_, rest) = rest.split_at(size);
    Some((others, listed, rest))
}

impl<'a> FrontRef<'a> {
    ghost use Rattle.std.specs.Prelude.{◌≡◌, ◌*◌, ◌++◌, ℕ, List, length, IfSome, IsSomeAnd};
    ghost use Rattle.am_change.specs.Fronts.{Front, front_bytes, IsFront};
    ghost use Rattle.am_change.specs.Building.{front_of};

    // What stands first in the contents, and the bytes behind it; None where no such parts stand there.
    pub fn read(bytes: &'a [u8]) -> Option<(FrontRef<'a>, &'a [u8])>
        ensures some { IfSome result (λ r. IsFront (front_of r.0) × (bytes.now ≡ front_bytes (front_of r.0) ++ r.1.now) × (length r.0.hashes.now ≡ 32 * r.0.count)) }
        ensures only { (front : Front) (rest : List ℕ) → IsFront front → bytes.now ≡ front_bytes front ++ rest
            → IsSomeAnd result (λ r. (front_of r.0 ≡ front) × (r.1.now ≡ rest)) }
    {
        let (count, hashes, rest) = hashes_at(bytes)?;
        let (actor, rest) = prefixed_at(rest)?;
        let (seq, start, time, rest) = stamps_at(rest)?;
        let (message, rest) = prefixed_at(rest)?;
        let (others, listed, rest) = lists_at(rest)?;
        let front = FrontRef {
            count,
            hashes,
            actor,
            seq,
            start,
            time,
            message,
            others,
            listed,
        };
        Some((front, rest))
    }
}
