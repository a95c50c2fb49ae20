//! Changes from change rows, one after the other.
ghost use Rattle.am_types.specs.declared.Table.{Table};
ghost use Rattle.am_types.specs.declared.Row.{Row};
ghost use Rattle.am_types.specs.declared.Meta.{Meta as AMeta};
ghost use Rattle.am_types.specs.Limits.{counter_end};
ghost use Rattle.am_change.specs.Hashes.{own_hash};
ghost use Rattle.am_rebuild.specs.Mentions.{ArePlaced, AreSortedMentions};
ghost use Rattle.am_rebuild.specs.Names.{names_of};
ghost use Rattle.am_rebuild.specs.Joined.{BuildsOne, TakesNext, BuildsGapless};
ghost use Rattle.std.specs.Prelude.{◌≡◌, [], ◌<◌, List, All, Contains, IfOk};

use crate::change::change_at;
use crate::gathered::Gathered;
use crate::lent_change::LentChange;
use crate::mention::Named;
use am_types::Meta;
use std::alloc::{AllocError, Global};

// Takes in what was built of a meta, where it is a change that joins.
fn join_next<'a>(
    alloc: Global,
    gathered: &mut Gathered<'a>,
    change: Option<LentChange<'a>>,
) -> Result<bool, AllocError>
    ensures { IfOk result (λ joined. (rows : List Row) (meta : AMeta) → BuildsOne rows gathered.old meta change.entry → TakesNext own_hash rows gathered.old meta gathered.new joined) }
{
    match change {
        None => Ok(false),
        Some(change) => {
            let joined = gathered.join(alloc, change)?;
            Ok(joined)
        }
    }
}

/// Builds the changes of the metas from all mentions in the rows, until one doesn't join, or a counter is missing. The mentions
/// are let go before the last change joins.
pub(crate) fn build_from<'a>(
    alloc: Global,
    gathered: &mut Gathered<'a>,
    names: &[&[u8]],
    all: Vec<Named<'a>>,
    metas: &'a [Meta],
) -> Result<bool, AllocError>
    requires empty { gathered.old ≡ [] }
    requires placed { ArePlaced (names_of names.now) all.items }
    requires named { All (λ m. Contains (names_of names.now) m.actor) metas.now }
    requires maxes { All (λ m. m.max < counter_end) metas.now }
    ensures { IfOk result (λ built. (t : Table) → AreSortedMentions t.rows all.entry.items → t.metas ≡ metas.now → BuildsGapless own_hash t gathered.new built) }
{
    let mut left = all;
    for (i, meta) in metas.iter().enumerate() {
        let change = change_at(alloc, gathered, names, &left, meta)?;
        if i + 1 == metas.len() {
            left = Vec::new(alloc);
        }
        let joined = join_next(alloc, gathered, change)?;
        if !joined {
            return Ok(false);
        }
    }
    Ok(true)
}
