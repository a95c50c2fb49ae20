//! The generated changes.
ghost use Rattle.std.specs.Prelude.{◌≡◌, ◌≤◌, ◌∷◌, [], All, IfOk, OnOk};
ghost use Rattle.am_types.specs.Bytes.{IsHash};
ghost use Rattle.am_types.specs.Fine.{Fine};
ghost use Rattle.am_change.specs.Hashes.{own_hash};
ghost use Rattle.am_gen.specs.Made.{first, in_round, made};

use crate::hashes::hashes_with;
use crate::operations::{first, in_round};
use am_change::hash_of;
use am_types::{Change, Hash, List, SharedActors, Twin, hash_known};
use std::alloc::{AllocError, Global};

// The hash of a change.
fn digest_of(alloc: Global, change: &Change) -> Result<Hash, AllocError>
    requires { Fine change.now }
    ensures value { IfOk result (λ digest. digest ≡ own_hash change.now) }
    ensures is { IfOk result (λ digest. IsHash digest) }
{
    let digest = hash_of(alloc, change)?;
    hash_known(&digest);
    Ok(digest)
}

/// The first n generated changes. Each of them is fine.
pub fn made(alloc: Global, n: u64) -> Result<List<Change>, AllocError>
    requires { n ≤ 100000 }
    ensures list { IfOk result (λ changes. changes ≡ made n) }
    ensures fine { IfOk result (λ changes. All Fine changes) }
{
    let mut changes = List::new(alloc);
    if n == 0 {
        return Ok(changes);
    }
    let mut actors = SharedActors::new(alloc);
    let start = first(alloc, &mut actors)?;
    let mut before = hashes_with(alloc, &[], digest_of(alloc, &start)?)?;
    changes.push(start)?;
    let mut here = List::new(alloc);
    let mut round = 1;
    let mut author = 0;
    let mut count = 1;
    while count < n {
        let change = in_round(alloc, &mut actors, round, author, before.copy(alloc)?)?;
        let with_this = hashes_with(alloc, here.as_slice(), digest_of(alloc, &change)?)?;
        changes.push(change)?;
        if author == 2 {
            round += 1;
            author = 0;
            before = with_this;
            here = List::new(alloc);
        } else {
            author += 1;
            here = with_this;
        }
        count += 1;
    }
    Ok(changes)
}
