//! Generated operations and changes.
ghost use Rattle.std.specs.Prelude.{◌≡◌, ◌≤◌, ◌%◌, IfOk};
ghost use Rattle.am_gen.specs.Made.{op, change, makes_text, sets_counter, first, inserts, counts, set_before, sets, deletes, ends, in_round};

use crate::parts::{actor, id, key, last, none, number, one, set_in, the_text, value};
use am_types::{
    Bytes, Change, Hash, Key, List, ObjId, Op, OpId, RawValue, SharedActors, Text, actions, kinds,
};
use std::alloc::{AllocError, Global};

// An operation that inserts nothing.
fn op(object: ObjId, key: Key, action: u8, value: RawValue, preds: List<OpId>) -> Op
    ensures { result ≡ op object key action value preds }
{
    Op {
        obj: object,
        key,
        insert: false,
        action,
        value,
        preds,
        expand: false,
        mark: None,
    }
}

// A change.
fn change(
    alloc: Global,
    actors: &mut SharedActors,
    deps: List<Hash>,
    number: u64,
    seq: u64,
    start: u64,
    ops: List<Op>,
) -> Result<Change, AllocError>
    ensures { IfOk result (λ c. c ≡ change deps number seq start ops) }
{
    Ok(Change {
        deps,
        actor: actor(alloc, actors, number)?,
        seq,
        start,
        time: 0,
        message: Text::new(alloc),
        ops,
        extra: Bytes::new(alloc),
    })
}

/// The first change.
pub fn first(alloc: Global, actors: &mut SharedActors) -> Result<Change, AllocError>
    ensures { IfOk result (λ c. c ≡ first) }
{
    let mut ops = List::new(alloc);
    let nothing = value(alloc, kinds::NULL, &[])?;
    ops.push(op(
        ObjId::Root,
        key(alloc, "text")?,
        actions::MAKE_TEXT,
        nothing,
        none(alloc),
    ))?;
    let zero = value(alloc, kinds::COUNTER, &[0])?;
    ops.push(op(
        ObjId::Root,
        key(alloc, "n")?,
        actions::SET,
        zero,
        none(alloc),
    ))?;
    change(alloc, actors, List::new(alloc), 0, 1, 1, ops)
}

// The place of the letter that an actor inserts.
fn place(
    alloc: Global,
    actors: &mut SharedActors,
    round: u64,
    author: u64,
) -> Result<Key, AllocError>
    requires some { 1 ≤ round }
    requires few { round ≤ 100000 }
    ensures { IfOk result (λ key. key ≡ (inserts round author).key) }
{
    if round == 1 {
        return Ok(Key::Head);
    }
    Ok(Key::Elem(last(alloc, actors, round, author)?))
}

// Inserts a letter.
fn inserts(
    alloc: Global,
    actors: &mut SharedActors,
    round: u64,
    author: u64,
) -> Result<Op, AllocError>
    requires some { 1 ≤ round }
    requires few { round ≤ 100000 }
    requires three { author ≤ 2 }
    ensures { IfOk result (λ op. op ≡ inserts round author) }
{
    let letter = 97 + ((round + author) % 26) as u8;
    Ok(Op {
        obj: the_text(alloc, actors)?,
        key: place(alloc, actors, round, author)?,
        insert: true,
        action: actions::SET,
        value: value(alloc, kinds::TEXT, &[letter])?,
        preds: none(alloc),
        expand: false,
        mark: None,
    })
}

// Counts one more change.
fn counts(alloc: Global, actors: &mut SharedActors) -> Result<Op, AllocError>
    ensures { IfOk result (λ op. op ≡ counts) }
{
    let amount = value(alloc, kinds::SIGNED, &[1])?;
    let preds = one(alloc, id(alloc, actors, 2, 0)?)?;
    Ok(op(
        ObjId::Root,
        key(alloc, "n")?,
        actions::INCREMENT,
        amount,
        preds,
    ))
}

// What was set before this round.
fn set_before(
    alloc: Global,
    actors: &mut SharedActors,
    round: u64,
) -> Result<List<OpId>, AllocError>
    requires some { 1 ≤ round }
    requires few { round ≤ 100000 }
    ensures { IfOk result (λ ids. ids ≡ set_before round) }
{
    if round == 1 {
        return Ok(none(alloc));
    }
    if (round - 1) % 3 == 0 {
        return set_in(alloc, actors, round - 2);
    }
    set_in(alloc, actors, round - 1)
}

// Sets the key k to the round.
fn sets(alloc: Global, actors: &mut SharedActors, round: u64) -> Result<Op, AllocError>
    requires some { 1 ≤ round }
    requires few { round ≤ 100000 }
    ensures { IfOk result (λ op. op ≡ sets round) }
{
    let preds = set_before(alloc, actors, round)?;
    Ok(op(
        ObjId::Root,
        key(alloc, "k")?,
        actions::SET,
        number(alloc, round)?,
        preds,
    ))
}

// Deletes the letter that the actor inserted in the round before.
fn deletes(
    alloc: Global,
    actors: &mut SharedActors,
    round: u64,
    author: u64,
) -> Result<Op, AllocError>
    requires some { 1 ≤ round }
    requires few { round ≤ 100000 }
    ensures { IfOk result (λ op. op ≡ deletes round author) }
{
    let preds = one(alloc, last(alloc, actors, round, author)?)?;
    let place = Key::Elem(last(alloc, actors, round, author)?);
    Ok(op(
        the_text(alloc, actors)?,
        place,
        actions::DELETE,
        value(alloc, kinds::NULL, &[])?,
        preds,
    ))
}

// The last operation of a change.
fn ends(alloc: Global, actors: &mut SharedActors, round: u64, author: u64) -> Result<Op, AllocError>
    requires some { 1 ≤ round }
    requires few { round ≤ 100000 }
    ensures { IfOk result (λ op. op ≡ ends round author) }
{
    if round % 3 == 0 {
        return deletes(alloc, actors, round, author);
    }
    sets(alloc, actors, round)
}

/// The change of an actor in a round.
pub fn in_round(
    alloc: Global,
    actors: &mut SharedActors,
    round: u64,
    author: u64,
    deps: List<Hash>,
) -> Result<Change, AllocError>
    requires some { 1 ≤ round }
    requires few { round ≤ 100000 }
    requires three { author ≤ 2 }
    ensures { IfOk result (λ c. c ≡ in_round round author deps) }
{
    let mut ops = List::new(alloc);
    ops.push(inserts(alloc, actors, round, author)?)?;
    ops.push(counts(alloc, actors)?)?;
    ops.push(ends(alloc, actors, round, author)?)?;
    let seq = if author == 0 { round + 1 } else { round };
    change(alloc, actors, deps, author, seq, 3 * round, ops)
}
