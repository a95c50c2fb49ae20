//! The places of the heads.
ghost use Rattle.std.specs.Prelude.{◌≡◌, IfOk, map};
ghost use Rattle.am_types.specs.Documents.{unless_empty};
ghost use Rattle.am_merge.specs.Places.{place_in};

use crate::lookup::Places;
use am_types::{Hash, List};
use std::alloc::{AllocError, Global};

/// The places of the heads, where there are any.
pub fn suffix_of(
    alloc: Global,
    heads: &[Hash],
    places: &Places<'_>,
) -> Result<Option<List<u64>>, AllocError>
    ensures { IfOk result (λ suffix. suffix ≡ unless_empty (map (λ h. place_in places.now h) heads.now)) }
{
    if heads.is_empty() {
        return Ok(None);
    }
    let suffix = places.each(alloc, heads)?;
    Ok(Some(suffix))
}
