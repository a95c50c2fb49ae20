//! The parts of a document, one after another.
ghost use Rattle.std.specs.Prelude.{◌≡◌, ◌++◌, IfOk};
ghost use Rattle.am_colmeta.specs.Actors.{actors_bytes};
ghost use Rattle.am_change.specs.Contents.{hashes_bytes};
ghost use Rattle.am_doc.specs.Contents.{suffix_bytes};

use crate::parts::{push_actors, push_hashes, push_suffix};
use am_types::{ActorId, Bytes, Hash, List};
use std::alloc::{AllocError, Global};

/// The actors, the heads, the metadata and then the bodies of the columns of change rows and of operation rows, and the
/// places of the heads, one after another.
pub fn joined(
    alloc: Global,
    actors: &[ActorId],
    heads: &[Hash],
    metas: &(Bytes, Bytes),
    rows: &(Bytes, Bytes),
    suffix: &Option<List<u64>>,
) -> Result<Bytes, AllocError>
    ensures { IfOk result (λ bytes. bytes ≡ actors_bytes actors.now ++ (hashes_bytes heads.now ++ (metas.now.0 ++ (rows.now.0 ++ (metas.now.1 ++ (rows.now.1 ++ suffix_bytes suffix.now)))))) }
{
    let mut out = Vec::new(alloc);
    push_actors(&mut out, actors)?;
    push_hashes(&mut out, heads)?;
    out.extend_from_slice(metas.0.as_slice())?;
    out.extend_from_slice(rows.0.as_slice())?;
    out.extend_from_slice(metas.1.as_slice())?;
    out.extend_from_slice(rows.1.as_slice())?;
    push_suffix(&mut out, suffix)?;
    Ok(Bytes::from(out))
}
