//! The chunks of waiting changes.
ghost use Rattle.std.specs.Prelude.{◌≡◌, ◌++◌, OnOk, All};
ghost use Rattle.std.specs.Ordering.{on};
ghost use Rattle.am_types.specs.Fine.{Fine};
ghost use Rattle.am_types.specs.Order.{hash_cmp, sorted_by};
ghost use Rattle.am_delivery.specs.Waiting.{waiting_of};
ghost use Rattle.am_store.specs.Saved.{chunks};

use am_change::chunk_of;
use am_types::{Bytes, Change, Hash};
use std::alloc::{AllocError, Global};
use std::collections::BTreeMap;

/// Appends the chunks of these changes, ascending by hash.
pub fn push_chunks(
    alloc: Global,
    file: &mut Bytes,
    changes: &BTreeMap<Hash, Box<Change>>,
) -> Result<(), AllocError>
    requires { All (λ m. Fine m.change) (waiting_of changes.now) }
    ensures { OnOk result (file.new ≡ file.old ++ chunks (sorted_by (on (λ m. m.hash) hash_cmp) (waiting_of changes.now))) }
{
    for (_, change) in changes.iter() {
        let chunk = chunk_of(alloc, &**change)?;
        file.push_slice(chunk.as_slice())?;
    }
    Ok(())
}
