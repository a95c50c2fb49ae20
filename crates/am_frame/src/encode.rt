//! The frame of a chunk.
ghost use Rattle.std.specs.Prelude.{◌≡◌, ◌<◌, IfOk};
ghost use Rattle.am_frame.specs.Frames.{framed};

use crate::cut::MAGIC;
use crate::digest::hash_of_pieces;
use am_leb::push_u;
use am_types::{Bytes, Hash};
use std::alloc::{AllocError, Global};

/// How many bytes a frame has before its contents at most: magic, checksum, type and length.
const LONGEST_HEAD: usize = 19;

/// The frame of a document (type 0) or of a change (type 1) with these contents.
pub fn framed(alloc: Global, kind: u8, contents: &[u8]) -> Result<Bytes, AllocError>
    requires { kind < 2 }
    ensures { IfOk result (λ bytes. bytes ≡ framed kind contents.now) }
{
    let mut head = Vec::new(alloc);
    head.push(kind)?;
    push_u(&mut head, contents.len() as u64)?;
    let Hash(digest) = hash_of_pieces(&head, contents);
    let (checksum, _) = digest.split_at(4);
    let mut bytes = Vec::with_capacity(alloc, contents.len().saturating_add(LONGEST_HEAD))?;
    bytes.extend_from_slice(&MAGIC)?;
    bytes.extend_from_slice(checksum)?;
    bytes.extend_from_slice(&head)?;
    bytes.extend_from_slice(contents)?;
    Ok(Bytes::from(bytes))
}
