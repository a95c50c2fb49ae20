//! Predecessors that are lent.
ghost use Rattle.std.specs.Prelude.{◌≡◌, ◌<◌, ◌∷◌, [], length, map, slice_index_or};
ghost use Rattle.am_types.specs.declared.OpId.{OpId as AnId};
ghost use Rattle.am_types.specs.Views.{id_of};

use am_types::IdRef;
use std::marker::Model;

/// Ids that are lent. Most operations have one predecessor at most.
#[derive(Drop)]
pub enum Ids<'a> {
    /// There are none.
    None,
    /// This one alone.
    One(IdRef<'a>),
    /// These, in this order.
    Many(Vec<IdRef<'a>>),
}

/// Predecessors that are lent. One alone takes no memory. Contracts see the list of them.
#[derive(Drop)]
pub struct LentPreds<'a> {
    ids: Ids<'a>,
}

impl<'a> Model for LentPreds<'a> {
    ghost use Rattle.std.specs.Prelude.{List};
    ghost use Rattle.am_types.specs.declared.OpId.{OpId};
    ghost use Rattle.am_rebuild.specs.LentPreds.{preds_of};

    ghost Value = { List OpId };

    ghost view = { preds_of };
}

impl<'a> LentPreds<'a> {
    /// Those of an operation that has none.
    pub(crate) fn none() -> Self
        ensures { result ≡ [] }
    {
        LentPreds { ids: Ids::None }
    }

    /// This one alone.
    pub(crate) fn one(id: IdRef<'a>) -> Self
        ensures { result ≡ id_of id.entry ∷ [] }
    {
        LentPreds { ids: Ids::One(id) }
    }

    /// These, in this order.
    pub(crate) fn many(ids: Vec<IdRef<'a>>) -> Self
        ensures { result ≡ map id_of ids.entry.items }
    {
        LentPreds {
            ids: Ids::Many(ids),
        }
    }

    /// How many there are.
    pub(crate) fn count(&self) -> usize
        ensures { result ≡ length self.now }
    {
        match &self.ids {
            Ids::None => 0,
            Ids::One(_) => 1,
            Ids::Many(ids) => ids.len(),
        }
    }

    /// The one at this place.
    pub(crate) fn at(&self, i: usize) -> IdRef<'a>
        requires { i < length self.now }
        ensures { (d : AnId) → id_of result ≡ slice_index_or self.now i d }
    {
        match &self.ids {
            Ids::None => unreachable!(),
            Ids::One(id) => *id,
            Ids::Many(ids) => ids[i],
        }
    }
}
