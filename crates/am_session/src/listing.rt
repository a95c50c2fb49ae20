//! The reply that lists the chunks of a file, one to a line.
ghost use Rattle.std.specs.Prelude.{◌≡◌, ◌++◌, ◌∷◌, [], OnOk, IfOk, Some, string_bytes, decimal, codes};
ghost use Rattle.sha2.specs.Sha256.{sha256};
ghost use Rattle.am_frame.specs.Frames.{chunk_of, covered};
ghost use Rattle.am_session.specs.Replies.{newline, refused};
ghost use Rattle.am_session.specs.Listing.{Lists, chunk_line, kind_word, bad_chunk};

use am_frame::{Frame, FrameFault, next_frame};
use am_types::{Bytes, Hash};
use std::alloc::{AllocError, Global};

fn kind_word(kind: u8) -> &'static str
    ensures { result.now ≡ kind_word kind }
{
    if kind == 0 { "document" } else { "change" }
}

// Appends the line of a chunk.
fn push_line(alloc: Global, lines: &mut String, frame: &Frame<'_>) -> Result<(), AllocError>
    requires { frame.now.hash.0 ≡ sha256 (covered frame.now.kind frame.now.contents.now) }
    ensures { OnOk result (string_bytes lines.new ≡ string_bytes lines.old ++ chunk_line (chunk_of frame.now.kind frame.now.contents.now)) }
{
    let word = kind_word(frame.kind);
    let count = frame.contents.len();
    let Hash(digest) = frame.hash;
    let hash = hex::encode(alloc, digest.as_slice())?;
    write!(lines, "{word} {count} {hash}\n")
}

fn bad(alloc: Global, word: &str, number: u64) -> Result<Bytes, AllocError>
    ensures { IfOk result (λ reply. reply ≡ refused (word.now ++ codes " chunk " ++ decimal number)) }
{
    Ok(Bytes::from(format!(in alloc; "refused {word} chunk {number}\n")?.into_bytes()))
}

// The reply where a chunk is bad.
fn bad_chunk(alloc: Global, fault: FrameFault, number: u64) -> Result<Bytes, AllocError>
    ensures { IfOk result (λ reply. reply ≡ bad_chunk fault number) }
{
    match fault {
        FrameFault::BadMagic => bad(alloc, "bad-magic", number),
        FrameFault::Truncated => bad(alloc, "truncated", number),
        FrameFault::BadLength => bad(alloc, "bad-length", number),
        FrameFault::BadChecksum => bad(alloc, "bad-checksum", number),
        FrameFault::ChunkType(kind) => {
            let word = format!(in alloc; "chunk-type {kind}")?;
            bad(alloc, word.as_str(), number)
        }
        FrameFault::CompressedChunk => bad(alloc, "compressed-chunk", number),
    }
}

fn whole(alloc: Global, count: u64, lines: &str) -> Result<Bytes, AllocError>
    ensures { IfOk result (λ reply. reply ≡ codes "ok " ++ decimal count ++ newline ∷ [] ++ lines.now) }
{
    Ok(Bytes::from(format!(in alloc; "ok {count}\n{lines}")?.into_bytes()))
}

/// The type, the length and the hash of each chunk of a file, or the number of the first that is bad and what is wrong with it.
pub fn list_frames(alloc: Global, bytes: &[u8]) -> Result<Bytes, AllocError>
    ensures { IfOk result (λ reply. Lists (Some bytes.now) reply) }
{
    let mut lines = String::new(alloc);
    let mut rest = bytes;
    let mut count = 0u64;
    'chunks: while !rest.is_empty() {
        let frame = match next_frame(rest) {
            Ok(frame) => frame,
            Err(fault) => return bad_chunk(alloc, fault, count + 1),
        };
        push_line(alloc, &mut lines, &frame)?;
        rest = frame.rest;
        count += 1;
    }
    whole(alloc, count, lines.as_str())
}
