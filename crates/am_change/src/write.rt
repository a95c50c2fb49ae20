//! Writing a change: the contents of its chunk, the chunk, and its hash.
ghost use Rattle.std.specs.Prelude.{◌≡◌, ◌++◌, IfOk, OnOk};
ghost use Rattle.am_types.specs.Fine.{Fine};
ghost use Rattle.am_colmeta.specs.Actors.{prefixed, actors_bytes};
ghost use Rattle.am_change.specs.Contents.{hashes_bytes, head, contents, chunk, hash};

use am_frame::framed;
use am_leb::{push_i, push_u};
use am_opcols::write_ops;
use am_types::{ActorId, Bytes, Hash, ReadChange};
use sha2::{Digest, Sha256};
use std::alloc::{AllocError, Global};

// Room for what most changes have beside their columns. No contract speaks of room.
const BESIDE: usize = 192;

// Appends bytes behind their length.
fn push_prefixed(out: &mut Vec<u8>, bytes: &[u8]) -> Result<(), AllocError>
    ensures { OnOk result (out.new.items ≡ out.old.items ++ prefixed bytes.now) }
{
    push_u(out, bytes.len() as u64)?;
    out.extend_from_slice(bytes)
}

// Appends the number of hashes, and the hashes.
fn push_hashes(out: &mut Vec<u8>, hashes: &[Hash]) -> Result<(), AllocError>
    ensures { OnOk result (out.new.items ≡ out.old.items ++ hashes_bytes hashes.now) }
{
    push_u(out, hashes.len() as u64)?;
    for hash in hashes {
        out.extend_from_slice(&hash.0)?;
    }
    Ok(())
}

// Appends the number of actors, and each behind its length.
fn push_actors(out: &mut Vec<u8>, actors: &[ActorId]) -> Result<(), AllocError>
    ensures { OnOk result (out.new.items ≡ out.old.items ++ actors_bytes actors.now) }
{
    push_u(out, actors.len() as u64)?;
    for actor in actors {
        push_prefixed(out, actor.as_slice())?;
    }
    Ok(())
}

// Appends what stands before the operations.
fn push_head<C: ReadChange>(out: &mut Vec<u8>, change: &C) -> Result<(), AllocError>
    ensures { OnOk result (out.new.items ≡ out.old.items ++ head (C.change change.now)) }
{
    push_hashes(out, change.deps())?;
    push_prefixed(out, change.actor().as_slice())?;
    push_u(out, change.seq())?;
    push_u(out, change.start())?;
    push_i(out, change.time())?;
    push_prefixed(out, change.message().as_bytes())
}

// The contents of the chunk of a fine change.
#[tactic(auto, unfolding(crate::specs::Contents::contents))]
fn contents_in<C: ReadChange>(alloc: Global, change: &C) -> Result<Vec<u8>, AllocError>
    requires { Fine (C.change change.now) }
    ensures { IfOk result (λ bytes. bytes.items ≡ contents (C.change change.now)) }
{
    let text = write_ops(alloc, change.ops(), change.actor())?;
    let mut out = Vec::with_capacity(alloc, text.body.len().saturating_add(BESIDE))?;
    push_head(&mut out, change)?;
    push_actors(&mut out, text.others.as_slice())?;
    out.extend_from_slice(text.metadata.as_slice())?;
    out.extend_from_slice(text.body.as_slice())?;
    out.extend_from_slice(change.extra())?;
    Ok(out)
}

/// The contents of the chunk of a fine change: its one canonical spelling.
pub fn contents_of<C: ReadChange>(alloc: Global, change: &C) -> Result<Bytes, AllocError>
    requires { Fine (C.change change.now) }
    ensures { IfOk result (λ bytes. bytes ≡ contents (C.change change.now)) }
{
    Ok(Bytes::from(contents_in(alloc, change)?))
}

/// The chunk of a fine change.
pub fn chunk_of<C: ReadChange>(alloc: Global, change: &C) -> Result<Bytes, AllocError>
    requires { Fine (C.change change.now) }
    ensures { IfOk result (λ bytes. bytes ≡ chunk (C.change change.now)) }
{
    let contents = contents_in(alloc, change)?;
    framed(alloc, 1, &contents)
}

/// The hash of a fine change, by which others name it.
pub fn hash_of<C: ReadChange>(alloc: Global, change: &C) -> Result<Hash, AllocError>
    requires { Fine (C.change change.now) }
    ensures { IfOk result (λ digest. digest.0 ≡ hash (C.change change.now)) }
{
    let contents = contents_in(alloc, change)?;
    let mut first = Vec::new(alloc);
    first.push(1)?;
    push_u(&mut first, contents.len() as u64)?;
    let mut hasher = Sha256::new();
    hasher.update(&first);
    hasher.update(&contents);
    Ok(Hash(hasher.finalize()))
}
