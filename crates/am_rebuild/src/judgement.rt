//! What is found of a table: its one history with its heads, its history with other heads, or none.
ghost use Rattle.std.specs.Prelude.{◌≡◌, ◌<◌, ◌↔◌, ℕ, List, [], All, IsTrue, IfOk, Option, None};
ghost use Rattle.am_types.specs.Order.{bytes_cmp, hash_cmp, among, Ascends};
ghost use Rattle.am_types.specs.Limits.{counter_end};
ghost use Rattle.am_change.specs.Hashes.{own_hash};
ghost use Rattle.am_histories.specs.Laws.{table_actors};
ghost use Rattle.am_rebuild.specs.Judged.{first_apart, IsJudged};
ghost use Rattle.am_rebuild.specs.Lending.{table_of};

use crate::building::build_from;
use crate::gathered::Gathered;
use crate::lent::LentRow;
use crate::mention::sorted_mentions;
use crate::names::names_in;
use crate::telling::ids_told;
use am_types::{ActorId, Hash, Meta, compare_actors};
use std::alloc::{AllocError, Global};
use std::cmp::Ordering;

/// What is found of a table.
#[derive(Clone, Copy, Debug)]
pub(crate) enum Judgement {
    /// The changes that joined are its history, and their heads are the stated ones.
    Whole,
    /// The changes that joined are its history, and this is the least hash that only one of the two lists of heads has.
    OtherHeads(Hash),
    /// It has no history.
    NoHistory,
}

fn compare_hashes(a: &Hash, b: &Hash) -> Ordering
    ensures { result ≡ hash_cmp a.now b.now }
{
    a.0.as_slice().cmp(b.0.as_slice())
}

// Whether each actor is below the next.
fn actors_ascend(actors: &[ActorId]) -> bool
    ensures { IsTrue result ↔ Ascends bytes_cmp actors.now }
{
    for i in 1..actors.len() {
        if compare_actors(actors[i - 1].as_slice(), actors[i].as_slice()) != Ordering::Less {
            return false;
        }
    }
    true
}

// The first difference of two ascending lists.
fn first_apart(a: &[Hash], b: &[Hash]) -> Option<Hash>
    ensures { result ≡ first_apart a.now b.now }
{
    for i in 0..a.len() {
        if i >= b.len() {
            return Some(a[i]);
        }
        match compare_hashes(&a[i], &b[i]) {
            Ordering::Less => return Some(a[i]),
            Ordering::Greater => return Some(b[i]),
            Ordering::Equal => {}
        }
    }
    if b.len() > a.len() {
        Some(b[a.len()])
    } else {
        None
    }
}

/// A table whose rows are lent.
#[derive(Clone, Copy)]
pub(crate) struct LentTable<'a> {
    pub actors: &'a [ActorId],
    pub heads: &'a [Hash],
    pub metas: &'a [Meta],
    pub rows: &'a [LentRow<'a>],
}

/// Rebuilds the changes of a table whose rows are lent, and judges it.
pub(crate) fn judge_lent<'a>(
    alloc: Global,
    gathered: &mut Gathered<'a>,
    table: LentTable<'a>,
) -> Result<Judgement, AllocError>
    requires empty { gathered.old ≡ [] }
    requires maxes { All (λ m. m.max < counter_end) table.metas.now }
    requires heads { Ascends hash_cmp table.heads.now }
    requires actors { All (λ a. IsTrue (among bytes_cmp table.actors.now a)) (table_actors (table_of table)) }
    ensures { IfOk result (IsJudged own_hash (table_of table.entry) gathered.new) }
{
    if !actors_ascend(table.actors) {
        return Ok(Judgement::NoHistory);
    }
    let names = names_in(alloc, table.actors)?;
    let all = sorted_mentions(alloc, &names, table.rows)?;
    let told = ids_told(alloc, table.rows, &all)?;
    let Some(ids) = told else {
        return Ok(Judgement::NoHistory);
    };
    if !build_from(alloc, gathered, &names, all, table.metas)? {
        return Ok(Judgement::NoHistory);
    }
    if ids != gathered.operation_count() {
        return Ok(Judgement::NoHistory);
    }
    let heads = gathered.heads(alloc)?;
    match first_apart(heads.as_slice(), table.heads) {
        None => Ok(Judgement::Whole),
        Some(hash) => Ok(Judgement::OtherHeads(hash)),
    }
}
