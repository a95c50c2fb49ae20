//! An operation whose parts are lent.
ghost use Rattle.std.specs.Prelude.{◌≡◌};
ghost use Rattle.am_types.specs.Views.{key_of};
ghost use Rattle.am_histories.specs.Rebuilt.{op_of, slot_of, deletion};

use crate::lent::LentRow;
use crate::lent_preds::LentPreds;
use am_types::{IdRef, KeyRef, ObjRef, ReadOp, ValueRef, actions, kinds};
use std::marker::Model;

/// An operation of which a row tells: its own, or a deletion of what it shows. All but the predecessors is read off the row.
/// Contracts see the operation.
#[derive(Drop)]
pub struct LentOp<'a> {
    row: &'a LentRow<'a>,
    /// Whether it deletes what the row shows.
    deletes: bool,
    preds: LentPreds<'a>,
}

impl<'a> Model for LentOp<'a> {
    ghost use Rattle.am_types.specs.declared.Op.{Op};
    ghost use Rattle.am_rebuild.specs.LentOps.{lent_op};

    ghost Value = { Op };

    ghost view = { lent_op };
}

// The slot of a row.
fn slot_key<'a>(row: &LentRow<'a>) -> KeyRef<'a>
    ensures { key_of result ≡ slot_of row.now }
{
    if row.insert {
        KeyRef::Elem(row.id)
    } else {
        row.key
    }
}

impl<'a> LentOp<'a> {
    /// The operation of the row.
    pub(crate) fn of_row(row: &'a LentRow<'a>, preds: LentPreds<'a>) -> LentOp<'a>
        ensures { result ≡ op_of preds.entry row.now }
    {
        LentOp {
            row,
            deletes: false,
            preds,
        }
    }

    /// A deletion in the slot of the row.
    pub(crate) fn deletion(row: &'a LentRow<'a>, preds: LentPreds<'a>) -> LentOp<'a>
        ensures { result ≡ deletion preds.entry row.now }
    {
        LentOp {
            row,
            deletes: true,
            preds,
        }
    }
}

impl<'a> ReadOp for LentOp<'a> {
    ghost op = { λ o. o };

    fn obj(&self) -> ObjRef<'_> {
        let row = self.row;
        row.obj
    }

    fn key(&self) -> KeyRef<'_> {
        let row = self.row;
        if self.deletes { slot_key(row) } else { row.key }
    }

    fn insert(&self) -> bool {
        let row = self.row;
        !self.deletes && row.insert
    }

    fn action(&self) -> u8 {
        let row = self.row;
        if self.deletes {
            actions::DELETE
        } else {
            row.action
        }
    }

    fn value(&self) -> ValueRef<'_> {
        let row = self.row;
        if self.deletes {
            ValueRef {
                kind: kinds::NULL,
                raw: &[],
            }
        } else {
            row.value
        }
    }

    fn pred_count(&self) -> usize {
        self.preds.count()
    }

    fn pred(&self, i: usize) -> IdRef<'_> {
        self.preds.at(i)
    }

    fn expand(&self) -> bool {
        let row = self.row;
        !self.deletes && row.expand
    }

    fn mark(&self) -> Option<&str> {
        let row = self.row;
        if self.deletes { None } else { row.mark }
    }
}
