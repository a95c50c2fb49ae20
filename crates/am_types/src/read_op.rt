//! What can be read as an operation.
ghost use Rattle.std.specs.Prelude.{◌≡◌, ◌<◌, length, option_map, slice_index_or};
ghost use Rattle.am_types.specs.Records.{Op as AnOp, OpId as AnId};
ghost use Rattle.am_types.specs.Views.{id_of, object_of, key_of, value_of};

use crate::{IdRef, KeyRef, ObjRef, Op, ValueRef};

/// What can be read as an operation, whether it owns its parts or borrows them.
pub trait ReadOp {
    /// The operation.
    ghost op: { Self → AnOp };

    /// The object in which it stands.
    fn obj(&self) -> ObjRef<'_>
        ensures { object_of result ≡ (op self.now).obj };

    /// The place in the object.
    fn key(&self) -> KeyRef<'_>
        ensures { key_of result ≡ (op self.now).key };

    /// Whether it makes a new element.
    fn insert(&self) -> bool
        ensures { result ≡ (op self.now).insert };

    /// What it does.
    fn action(&self) -> u8
        ensures { result ≡ (op self.now).action };

    /// The value that it carries.
    fn value(&self) -> ValueRef<'_>
        ensures { value_of result ≡ (op self.now).value };

    /// How many operations it replaces, deletes or adds to.
    fn pred_count(&self) -> usize
        ensures { result ≡ length (op self.now).preds };

    /// One of these.
    fn pred(&self, i: usize) -> IdRef<'_>
        requires { i < length (op self.now).preds }
        ensures { (d : AnId) → id_of result ≡ slice_index_or (op self.now).preds i d };

    /// Whether a mark grows with what is inserted at its end.
    fn expand(&self) -> bool
        ensures { result ≡ (op self.now).expand };

    /// The name of a mark.
    fn mark(&self) -> Option<&str>
        ensures { option_map (λ s. s.now) result ≡ (op self.now).mark };
}

impl ReadOp for Op {
    ghost op = { λ o. o };

    #[inline(always)]
    fn obj(&self) -> ObjRef<'_> {
        self.obj.lend()
    }

    #[inline(always)]
    fn key(&self) -> KeyRef<'_> {
        self.key.lend()
    }

    #[inline(always)]
    fn insert(&self) -> bool {
        self.insert
    }

    #[inline(always)]
    fn action(&self) -> u8 {
        self.action
    }

    #[inline(always)]
    fn value(&self) -> ValueRef<'_> {
        self.value.lend()
    }

    #[inline(always)]
    fn pred_count(&self) -> usize {
        self.preds.len()
    }

    #[inline(always)]
    fn pred(&self, i: usize) -> IdRef<'_> {
        self.preds.as_slice()[i].lend()
    }

    #[inline(always)]
    fn expand(&self) -> bool {
        self.expand
    }

    #[inline(always)]
    fn mark(&self) -> Option<&str> {
        match &self.mark {
            None => None,
            Some(name) => Some(name.as_str()),
        }
    }
}
