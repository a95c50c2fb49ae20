//! Whether rows tell just the operations that were rebuilt from them, and stand in order.
ghost use Rattle.std.specs.Prelude.{◌≡◌, ◌≢◌, ◌↔◌, All, IsTrue, IfOk, None, map, filter, option_map};
ghost use Rattle.std.specs.Ordering.{on};
ghost use Rattle.am_types.specs.declared.Row.{Row};
ghost use Rattle.am_types.specs.Actions as actions;
ghost use Rattle.am_types.specs.Order.{id_cmp, Ascends};
ghost use Rattle.am_types.specs.Views.{id_of};
ghost use Rattle.am_rebuild.specs.Mentions.{AreSortedMentions};
ghost use Rattle.am_rebuild.specs.Told.{is_last, ids_behind, differ_from, TellsIds};

use crate::lent::LentRow;
use crate::mention::Named;
use crate::order::lent_in_order;
use am_types::actions::DELETE;
use am_types::{IdRef, compare_ids, same_id};
use std::alloc::{AllocError, Global};
use std::cmp::Ordering;

fn is_last(last: Option<IdRef<'_>>, id: IdRef<'_>) -> bool
    ensures { result ≡ is_last (option_map id_of last.entry) (id_of id.entry) }
{
    match last {
        None => false,
        Some(last) => same_id(last, id),
    }
}

// How many ids are mentioned.
fn count_ids(all: &[Named<'_>]) -> usize
    ensures { result ≡ ids_behind None (map (λ n. id_of n.id) all.now) }
{
    let mut count = 0;
    let mut last = None;
    for named in all {
        if !is_last(last, named.id) {
            count += 1;
            last = Some(named.id);
        }
    }
    count
}

// Whether no two rows have one id.
fn own_ids_differ(all: &[Named<'_>]) -> bool
    ensures { result ≡ differ_from None (map (λ n. id_of n.id) (filter (λ n. n.own) all.now)) }
{
    let mut last = None;
    for named in all {
        if named.own {
            if is_last(last, named.id) {
                return false;
            }
            last = Some(named.id);
        }
    }
    true
}

// Whether each id is below the next.
fn ids_ascend(ids: &[IdRef<'_>]) -> bool
    ensures { IsTrue result ↔ Ascends (on id_of id_cmp) ids.now }
{
    for i in 1..ids.len() {
        if compare_ids(ids[i - 1], ids[i]) != Ordering::Less {
            return false;
        }
    }
    true
}

// Whether the succs of the row ascend.
fn succs_ascend(row: &LentRow<'_>) -> bool
    ensures { IsTrue result ↔ Ascends id_cmp row.now.succs }
{
    ids_ascend(row.succs.as_slice())
}

// Whether the row is no deletion's, and its succs ascend.
fn is_kept(row: &LentRow<'_>) -> bool
    ensures { IsTrue result ↔ ((row.now.action ≢ actions.del) × Ascends id_cmp row.now.succs) }
{
    row.action != DELETE && succs_ascend(row)
}

fn are_kept(rows: &[LentRow<'_>]) -> bool
    ensures { IsTrue result ↔ All (λ r. (r.action ≢ actions.del) × Ascends id_cmp r.succs) rows.now }
{
    rows.iter().all(|row| is_kept(row))
}

/// How many ids the rows, in which all is mentioned, have or name, where each row is the only one of an operation that isn't a
/// deletion, with succs that ascend, and they are in document order.
pub(crate) fn ids_told(
    alloc: Global,
    rows: &[LentRow<'_>],
    all: &[Named<'_>],
) -> Result<Option<u64>, AllocError>
    requires { AreSortedMentions rows.now all.now }
    ensures { IfOk result (λ told. TellsIds rows.now told) }
{
    if !own_ids_differ(all) || !are_kept(rows) {
        return Ok(None);
    }
    let told = lent_in_order(alloc, rows)?;
    if told {
        Ok(Some(count_ids(all) as u64))
    } else {
        Ok(None)
    }
}
