//! What can be read as a change.
ghost use Rattle.std.specs.Prelude.{◌≡◌, map};
ghost use Rattle.am_types.specs.Records.{Change as AChange};

use crate::read_op::ReadOp;
use crate::{ActorId, Change, Hash, Op};

/// What can be read as a change, whether it owns its parts or borrows them.
pub trait ReadChange {
    /// What its operations are.
    type Op: ReadOp;

    /// The change.
    ghost change: { Self → AChange };

    /// The hashes of the changes that it builds on.
    fn deps(&self) -> &[Hash]
        ensures { result.now ≡ (change self.now).deps };

    /// Who made it.
    fn actor(&self) -> &ActorId
        ensures { result.now ≡ (change self.now).actor };

    /// The number of the actor's changes up to this one.
    fn seq(&self) -> u64
        ensures { result ≡ (change self.now).seq };

    /// The counter of its first operation.
    fn start(&self) -> u64
        ensures { result ≡ (change self.now).start };

    /// When it was made, in milliseconds since 1970.
    fn time(&self) -> i64
        ensures { result ≡ (change self.now).time };

    /// What its author noted about it.
    fn message(&self) -> &str
        ensures { result.now ≡ (change self.now).message };

    /// Its operations.
    fn ops(&self) -> &[Self::Op]
        ensures { map Self.Op.op result.now ≡ (change self.now).ops };

    /// Bytes of a later version of the format.
    fn extra(&self) -> &[u8]
        ensures { result.now ≡ (change self.now).extra };
}

impl ReadChange for Change {
    type Op = Op;

    ghost change = { λ c. c };

    #[inline(always)]
    fn deps(&self) -> &[Hash] {
        self.deps.as_slice()
    }

    #[inline(always)]
    fn actor(&self) -> &ActorId {
        &self.actor
    }

    #[inline(always)]
    fn seq(&self) -> u64 {
        self.seq
    }

    #[inline(always)]
    fn start(&self) -> u64 {
        self.start
    }

    #[inline(always)]
    fn time(&self) -> i64 {
        self.time
    }

    #[inline(always)]
    fn message(&self) -> &str {
        self.message.as_str()
    }

    #[inline(always)]
    fn ops(&self) -> &[Op] {
        self.ops.as_slice()
    }

    #[inline(always)]
    fn extra(&self) -> &[u8] {
        self.extra.as_slice()
    }
}
