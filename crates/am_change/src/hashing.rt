//! Changes beside their own hashes.
ghost use Rattle.std.specs.Prelude.{◌≡◌, All, IfOk, map, vec_items};
ghost use Rattle.am_types.specs.Fine.{Fine};
ghost use Rattle.am_types.specs.Deliver.{MayCome};
ghost use Rattle.am_change.specs.Hashes.{own_pair, with_hash as own_member, with_hashes as own_members};

use crate::write::hash_of;
use am_types::{Change, Hash, Twin, hash_known};
use std::alloc::{AllocError, Global};

/// The change behind its own hash.
pub fn with_hash(alloc: Global, change: Change) -> Result<(Hash, Change), AllocError>
    requires { Fine change }
    ensures own { IfOk result (λ pair. pair ≡ own_pair change) }
    ensures may_come { IfOk result (λ _. MayCome (own_member change)) }
{
    let hash = hash_of(alloc, &change)?;
    hash_known(&hash);
    Ok((hash, change))
}

/// Copies of these changes, each behind its own hash.
pub fn with_hashes(alloc: Global, changes: &[Change]) -> Result<Vec<(Hash, Change)>, AllocError>
    requires { All Fine changes.now }
    ensures own { IfOk result (λ pairs. vec_items pairs ≡ map own_pair changes.now) }
    ensures may_come { IfOk result (λ _. All MayCome (own_members changes.now)) }
{
    let mut pairs = Vec::new(alloc);
    for change in changes {
        let copy = change.copy(alloc)?;
        let pair = with_hash(alloc, copy)?;
        pairs.push(pair)?;
    }
    Ok(pairs)
}
