//! The command that tells the changes of the store.
ghost use Rattle.std.specs.Prelude.{◌≡◌, ◌++◌, ◌∷◌, [], string_bytes, codes, decimal, length, flat_map, IfOk, OnOk};
ghost use Rattle.am_store.specs.History.{history};
ghost use Rattle.am_session.specs.Replies.{newline};
ghost use Rattle.am_session.specs.History.{name_text, place_text, time_text, history_line, history_text};

use crate::replies::{hash_text, push_number};
use am_json::string_text;
use am_store::{HistoryLine, Store};
use am_types::Bytes;
use std::alloc::{AllocError, Global};

// The hash of a change and its author.
fn name_text(alloc: Global, line: &HistoryLine) -> Result<String, AllocError>
    ensures { IfOk result (λ text. string_bytes text ≡ name_text line.now) }
{
    let hash = hash_text(alloc, &line.hash)?;
    let actor = hex::encode(alloc, line.actor.as_slice())?;
    format!(in alloc; "{hash} {actor}")
}

// When it was made.
fn time_text(alloc: Global, time: i64) -> Result<String, AllocError>
    ensures { IfOk result (λ text. string_bytes text ≡ time_text time) }
{
    format!(in alloc; " {time} ")
}

// Appends its number among the author's changes, its first counter, and how many operations it has.
fn push_place(
    alloc: Global,
    lines: &mut Bytes,
    seq: u64,
    start: u64,
    count: u64,
) -> Result<(), AllocError>
    ensures { OnOk result (lines.new ≡ lines.old ++ place_text seq start count) }
{
    push_number(alloc, lines, " ", seq)?;
    push_number(alloc, lines, " ", start)?;
    push_number(alloc, lines, " ", count)
}

// Appends the line of a change.
fn push_line(alloc: Global, lines: &mut Bytes, line: &HistoryLine) -> Result<(), AllocError>
    ensures { OnOk result (lines.new ≡ lines.old ++ history_line line.now) }
{
    let name = name_text(alloc, line)?;
    let time = time_text(alloc, line.time)?;
    let message = string_text(alloc, line.message.as_str())?;
    lines.push_slice(name.as_bytes())?;
    push_place(alloc, lines, line.seq, line.start, line.count)?;
    lines.push_slice(time.as_bytes())?;
    lines.push_slice(message.as_slice())?;
    lines.push_slice(b"\n")
}

// How many lines follow.
fn count_line(alloc: Global, count: usize) -> Result<Bytes, AllocError>
    ensures { IfOk result (λ line. line ≡ codes "ok " ++ decimal count ++ newline ∷ []) }
{
    Ok(Bytes::from(format!(in alloc; "ok {count}\n")?.into_bytes()))
}

// The lines of changes.
fn lines_of(alloc: Global, all: &[HistoryLine]) -> Result<Bytes, AllocError>
    ensures { IfOk result (λ lines. lines ≡ flat_map history_line all.now) }
{
    let mut lines = Bytes::new(alloc);
    for line in all {
        push_line(alloc, &mut lines, line)?;
    }
    Ok(lines)
}

// How many lines there are, and then each of them.
fn history_text(alloc: Global, all: &[HistoryLine]) -> Result<Bytes, AllocError>
    ensures { IfOk result (λ reply. reply ≡ history_text all.now) }
{
    let lines = lines_of(alloc, all)?;
    let mut reply = count_line(alloc, all.len())?;
    reply.push_slice(lines.as_slice())?;
    Ok(reply)
}

/// The changes of the closed set in canonical order: each its hash, author, number, first counter, count of operations,
/// time and message.
pub fn list_history(alloc: Global, store: &Store) -> Result<Bytes, AllocError>
    ensures { IfOk result (λ reply. reply ≡ history_text (history store.now.closed)) }
{
    let all = store.history(alloc)?;
    history_text(alloc, all.as_slice())
}
