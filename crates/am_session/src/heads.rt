//! The commands that tell hashes of the store.
ghost use Rattle.std.specs.Prelude.{◌≡◌, IfOk};
ghost use Rattle.am_types.specs.Order.{hash_cmp, sorted_by};
ghost use Rattle.am_types.specs.Members.{heads, hashes};
ghost use Rattle.am_session.specs.Replies.{hash_list};

use crate::replies::hash_list;
use crate::session::Session;
use am_types::Bytes;
use std::alloc::{AllocError, Global};

/// The heads of the closed set, ascending.
pub fn list_heads(alloc: Global, session: &Session) -> Result<Bytes, AllocError>
    ensures { IfOk result (λ reply. reply ≡ hash_list (heads session.now.kept.closed)) }
{
    let heads = session.graph().heads(alloc)?;
    hash_list(alloc, heads.as_slice())
}

/// The waiting changes, ascending by hash.
#[tactic(auto, using(crate::proofs::Ascending::sorted_ascending))]
pub fn list_waiting(alloc: Global, session: &Session) -> Result<Bytes, AllocError>
    ensures { IfOk result (λ reply. reply ≡ hash_list (sorted_by hash_cmp (hashes session.now.kept.waiting))) }
{
    let waiting = session.waiting(alloc)?;
    hash_list(alloc, waiting.as_slice())
}
