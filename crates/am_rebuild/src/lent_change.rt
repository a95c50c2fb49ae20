//! A change whose parts are lent.
use crate::lent_op::LentOp;
use am_types::{ActorId, Hash, List, Meta, ReadChange};
use std::marker::Model;

/// A change whose operations are lent by rows, and most of the rest by its change row; its dependencies and its start are its
/// own. Contracts see the change.
#[derive(Drop)]
pub struct LentChange<'a> {
    pub(crate) deps: List<Hash>,
    pub(crate) meta: &'a Meta,
    pub(crate) start: u64,
    pub(crate) ops: Vec<LentOp<'a>>,
}

impl<'a> Model for LentChange<'a> {
    ghost use Rattle.am_types.specs.declared.Change.{Change};
    ghost use Rattle.am_rebuild.specs.LentChanges.{lent_change};

    ghost Value = { Change };

    ghost view = { lent_change };
}

impl<'a> ReadChange for LentChange<'a> {
    type Op = LentOp<'a>;

    ghost change = { λ c. c };

    fn deps(&self) -> &[Hash] {
        self.deps.as_slice()
    }

    fn actor(&self) -> &ActorId {
        &self.meta.actor
    }

    fn seq(&self) -> u64 {
        self.meta.seq
    }

    fn start(&self) -> u64 {
        self.start
    }

    fn time(&self) -> i64 {
        self.meta.time
    }

    fn message(&self) -> &str {
        self.meta.message.as_str()
    }

    fn ops(&self) -> &[LentOp<'a>] {
        self.ops.as_slice()
    }

    fn extra(&self) -> &[u8] {
        self.meta.extra.as_slice()
    }
}
