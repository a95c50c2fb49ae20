//! The closed set comes to rest with the changes that have joined it.
ghost use Rattle.std.specs.Prelude.{◌≡◌, ◌++◌, List, All, OnOk, OnErr};
ghost use Rattle.am_types.specs.declared.Hash.{Hash as AHash};
ghost use Rattle.am_types.specs.Members.{hashes};
ghost use Rattle.am_delivery.specs.Waiting.{waiting_of, taken_out, AreLent};

use crate::closed::Closed;
use am_types::{Change, Hash};
use std::alloc::{AllocError, Global};
use std::collections::BTreeMap;

/// Brings the closed set to rest, where these changes, which are lent from the waiting ones, have joined it.
pub fn finish_with<S: Closed>(
    alloc: Global,
    closed: &mut S,
    waiting: &BTreeMap<Hash, Box<Change>>,
    lent: &[&Change],
) -> Result<(), AllocError>
    requires joined { (hs : List AHash) × (S.members closed.old ≡ S.base closed.old ++ taken_out hs (waiting_of waiting.now)) × (hashes (taken_out hs (waiting_of waiting.now)) ≡ hs) × AreLent lent.now hs (waiting_of waiting.now) }
    requires admitted { All S.admits (waiting_of waiting.now) }
    ensures members { OnOk result (S.members closed.new ≡ S.members closed.old) }
    ensures rest { OnOk result (S.base closed.new ≡ S.members closed.old) }
    ensures base { OnErr result (S.base closed.new ≡ S.base closed.old) }
{
    let _count = waiting.len();
    closed.finish(alloc, lent)
}
