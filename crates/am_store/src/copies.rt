//! Copies of changes in boxes beside their hashes.
ghost use Rattle.std.specs.Prelude.{◌≡◌, IfOk, OnOk};
ghost use Rattle.std.specs.BTreeMap.{insert_entry};
ghost use Rattle.am_types.specs.Order.{hash_cmp};
ghost use Rattle.am_delivery.specs.Waiting.{unboxed};

use am_types::{Change, Hash, Twin};
use std::alloc::{AllocError, Global};
use std::collections::BTreeMap;

// Puts a copy of the change into the map. A function by itself, so that the loop has one path, whatever stood there.
fn insert_copy(
    alloc: Global,
    map: &mut BTreeMap<Hash, Box<Change>>,
    hash: Hash,
    change: &Change,
) -> Result<(), AllocError>
    ensures { OnOk result (unboxed map.new.entries ≡ insert_entry hash_cmp (unboxed map.old.entries) hash change.now) }
{
    let twin = change.copy(alloc)?;
    let boxed = Box::new(alloc, twin)?;
    map.insert(hash, boxed)?;
    Ok(())
}

/// A map of equal changes.
pub fn map_copied(
    alloc: Global,
    changes: &BTreeMap<Hash, Box<Change>>,
) -> Result<BTreeMap<Hash, Box<Change>>, AllocError>
    ensures { IfOk result (λ twin. unboxed twin.entries ≡ unboxed changes.now.entries) }
{
    let mut twin = BTreeMap::new(alloc);
    for (hash, change) in changes.iter() {
        insert_copy(alloc, &mut twin, *hash, &**change)?;
    }
    Ok(twin)
}
