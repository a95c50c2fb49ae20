//! Any bytes are a file, or have a first chunk that is bad.
ghost use Rattle.std.specs.Prelude.{false, Bool};
ghost use Rattle.am_frame.specs.Frames.{IsChunk, chunk_of};
ghost use Rattle.am_store.specs.AnyFile.{IsRead, IsTold};

use am_change::ChangeRef;
use am_doc::{DocRef, one_judgement};
use am_frame::next_frame;
use am_histories::{history_or_none, is_rebuilt};

// What a change chunk with these contents is found to be. Nothing is answered.
fn change_told(contents: &[u8])
    requires { IsChunk (chunk_of 1 contents.now) }
    ensures { (only : Bool) → IsTold only (chunk_of 1 contents.now) }
{
    let _change = ChangeRef::read(contents);
}

// What a document chunk with these contents is found to be, where one may stand. Nothing is answered. That a table has a
// history or none is a law; to find out which takes memory.
fn document_told(contents: &[u8])
    requires { IsChunk (chunk_of 0 contents.now) }
    ensures { IsTold false (chunk_of 0 contents.now) }
{
    one_judgement();
    history_or_none();
    is_rebuilt();
    let _doc = DocRef::read(contents);
}

// What a chunk of this type with these contents is found to be. Nothing is answered.
fn chunk_told(kind: u8, contents: &[u8], only_changes: bool)
    requires { IsChunk (chunk_of kind contents.now) }
    ensures { IsTold only_changes (chunk_of kind contents.now) }
{
    if kind == 1 {
        change_told(contents);
        return;
    }
    if only_changes {
        return;
    }
    document_told(contents);
}

/// Bytes are a file of changes and documents, with `only_changes` of changes alone, or have a first chunk that is bad.
/// Nothing is answered; the contract is the law. The body tells the chunks apart and what their contents spell, and takes no
/// memory. It goes on behind a whole chunk also where its contents are bad: the contract asks no more.
pub fn some_reading(bytes: &[u8], only_changes: bool)
    ensures { IsRead only_changes bytes.now }
{
    let mut rest = bytes;
    'chunks: while !rest.is_empty() {
        let frame = match next_frame(rest) {
            Ok(frame) => frame,
            Err(_) => return,
        };
        chunk_told(frame.kind, frame.contents, only_changes);
        rest = frame.rest;
    }
}
