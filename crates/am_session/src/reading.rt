//! The reply with what is visible, read off the rows of the store's document.
ghost use Rattle.std.specs.Prelude.{◌≡◌, ◌++◌, ◌∷◌, [], All, IfErr, IfOk, OnOk, Some, find, not, true, false};
ghost use Rattle.am_types.specs.Ancestors.{ancestors};
ghost use Rattle.am_types.specs.Members.{heads, holds};
ghost use Rattle.am_types.specs.EntryOrder.{IsInOrder};
ghost use Rattle.am_graph.specs.Clocks.{IsClockOf};
ghost use Rattle.am_graph.specs.Graphs.{MatchFault};
ghost use Rattle.am_json.specs.Shown.{json_data};
ghost use Rattle.am_session.specs.Replies.{newline};
ghost use Rattle.am_session.specs.Reading.{printed, reading_at};

use crate::replies::{refusal, unknown};
use am_delivery::part_is_valid;
use am_graph::{Clock, ClockFault};
use am_json::{Form, JsonFault, LentJsonMaker};
use am_laws::heads_reach_all;
use am_replay::entries_are_in_order;
use am_store::Store;
use am_types::{Bytes, Hash};
use am_view::Shown;
use std::alloc::{AllocError, Global};

// A text on a line of its own.
fn line_with(text: Bytes) -> Result<Bytes, AllocError>
    ensures { IfOk result (λ line. line ≡ text ++ newline ∷ []) }
{
    let mut line = text;
    line.push_slice(b"\n")?;
    Ok(line)
}

/// The reply with the text of the entries that were pushed. One that nests too deep is refused.
#[tactic(auto, using(crate::proofs::PrintedText::fits_text, crate::proofs::PrintedText::deep_text))]
pub fn reply_of(alloc: Global, maker: LentJsonMaker<'_>) -> Result<Bytes, AllocError>
    ensures { IfOk result (λ reply. reply ≡ printed (json_data maker.entry.form maker.entry.entries)) }
{
    match maker.finish(alloc) {
        Ok(text) => line_with(text),
        Err(JsonFault::TooDeep) => refusal(alloc, "deep"),
        Err(JsonFault::NoMemory) => Err(AllocError),
    }
}

// A maker without entries. There is room for as many as may come, if there is memory for that; else room is made as they
// come.
fn maker_for<'a>(alloc: Global, form: Form, shown: &Shown<'a>) -> LentJsonMaker<'a>
    ensures { result ≡ record { form = form; entries = []; failed = false } }
{
    match LentJsonMaker::with_room(alloc, form, shown.most() as usize) {
        Ok(maker) => maker,
        Err(_) => LentJsonMaker::new(alloc, form),
    }
}

// A maker with all entries that are handed out.
fn filled_maker<'a>(
    alloc: Global,
    form: Form,
    shown: &mut Shown<'a>,
) -> Result<LentJsonMaker<'a>, AllocError>
    requires { IsInOrder shown.old }
    ensures form { IfOk result (λ maker. maker.form ≡ form) }
    ensures entries { IfOk result (λ maker. maker.entries ≡ shown.old) }
{
    maker_for(alloc, form, shown).filled(shown)
}

// The reply with the text of the entries that are handed out. The walk stands in a box: letting go of a box is one step of
// the proof, where a `Shown` is let go field by field.
fn print(alloc: Global, form: Form, shown: Shown<'_>) -> Result<Bytes, AllocError>
    requires { IsInOrder shown }
    ensures { IfOk result (λ reply. reply ≡ printed (json_data form shown.entry)) }
{
    let mut boxed = Box::new(alloc, shown)?;
    let maker = filled_maker(alloc, form, &mut boxed)?;
    reply_of(alloc, maker)
}

// The clock of the ancestors of these hashes.
fn clock_at(alloc: Global, hashes: &[Hash], store: &Store) -> Result<Clock, ClockFault>
    ensures ok { IfOk result (λ clock. IsClockOf (ancestors store.now.closed hashes.now) clock) }
    ensures held { OnOk result (All (λ h. holds store.now.closed h ≡ true) hashes.now) }
    ensures unknown { IfErr result (λ fault. MatchFault fault (λ h. find (λ k. not (holds store.now.closed k)) hashes.now ≡ Some h)) }
{
    store.graph().clock(alloc, hashes)
}

// What is visible at these hashes. Of the changes nothing is decoded, and no entry is copied.
fn read_at(alloc: Global, form: Form, hashes: &[Hash], store: &Store) -> Result<Bytes, AllocError>
    ensures { IfOk result (λ reply. reply ≡ reading_at form hashes.now store.now.closed) }
{
    part_is_valid();
    entries_are_in_order();
    let _graph = store.graph();
    match clock_at(alloc, hashes, store) {
        Ok(clock) => print(alloc, form, Shown::over(store.doc(), &clock)),
        Err(ClockFault::UnknownHead(hash)) => unknown(alloc, &hash),
        Err(ClockFault::NoMemory) => Err(AllocError),
    }
}

/// What is visible at the heads of the closed set. There every id is covered, so that no clock is asked.
pub fn read_at_heads(alloc: Global, form: Form, store: &Store) -> Result<Bytes, AllocError>
    ensures { IfOk result (λ reply. reply ≡ reading_at form (heads store.now.closed) store.now.closed) }
{
    part_is_valid();
    entries_are_in_order();
    heads_reach_all();
    let _graph = store.graph();
    print(alloc, form, Shown::whole(store.doc()))
}

/// What is visible at these hashes, which may be known to be the heads of the closed set.
pub fn read(
    alloc: Global,
    form: Form,
    hashes: &[Hash],
    are_heads: bool,
    store: &Store,
) -> Result<Bytes, AllocError>
    requires { are_heads ≡ true → hashes.now ≡ heads store.now.closed }
    ensures { IfOk result (λ reply. reply ≡ reading_at form hashes.now store.now.closed) }
{
    if are_heads {
        return read_at_heads(alloc, form, store);
    }
    read_at(alloc, form, hashes, store)
}
