//! Changes beside their own hashes.
ghost use Rattle.std.specs.Prelude.{◌≡◌, All, IfOk, vec_items};
ghost use Rattle.am_types.specs.Fine.{Fine};
ghost use Rattle.am_types.specs.Deliver.{MayCome};
ghost use Rattle.am_change.specs.Hashes.{with_hashes};
ghost use Rattle.am_delivery.specs.Waiting.{members_of};

use am_change::hash_of;
use am_types::{Change, Hash, Twin, hash_known};
use std::alloc::{AllocError, Global};

/// Copies of these changes, each beside its hash.
pub fn hashed(alloc: Global, changes: &[Change]) -> Result<Vec<(Hash, Change)>, AllocError>
    requires { All Fine changes.now }
    ensures own_hashes { IfOk result (λ pairs. members_of (vec_items pairs) ≡ with_hashes changes.now) }
    ensures may_come { IfOk result (λ pairs. All MayCome (members_of (vec_items pairs))) }
{
    let mut pairs = Vec::new(alloc);
    for change in changes {
        let hash = hash_of(alloc, change)?;
        hash_known(&hash);
        let change = change.copy(alloc)?;
        pairs.push((hash, change))?;
    }
    Ok(pairs)
}
