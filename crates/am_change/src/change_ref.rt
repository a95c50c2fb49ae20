//! A change that is lent from the contents of its chunk.
ghost use Rattle.std.specs.Prelude.{◌≡◌, length, IfOk, Err};
ghost use Rattle.am_change.specs.Judgement.{Judges};

use crate::copying::change_in;
use crate::fault::ChangeFault;
use crate::fine_parts::are_fine;
use crate::front::FrontRef;
use crate::hash_list::HashList;
use crate::parse::{behind_front, is_canonical, length_known};
use am_opcols::OpCursor;
use am_types::{Change, SharedActors};
use std::alloc::{AllocError, Global};
use std::marker::Model;

/// A fine change, lent from the contents of its chunk. A contract sees the change. Nothing is copied.
#[derive(Drop)]
pub struct ChangeRef<'a> {
    front: FrontRef<'a>,
    message: &'a str,
    ops: OpCursor<'a>,
    extra: &'a [u8],
}

impl<'a> Model for ChangeRef<'a> {
    ghost use Rattle.std.specs.Prelude.{◌≡◌, ◌≤◌, ◌*◌, length};
    ghost use Rattle.std.specs.List.{AllByRecursion};
    ghost use Rattle.am_types.specs.declared.Change.{Change};
    ghost use Rattle.am_types.specs.Limits.{longest_actor};
    ghost use Rattle.am_change.specs.Building.{front_of, change_with, IsOpWithin};

    ghost Value = { Change };

    ghost view = { λ c. change_with (front_of c.front) c.ops c.extra.now };

    ghost invariant = { λ c. (length c.front.hashes.now ≡ 32 * c.front.count)
        × (c.message.now ≡ c.front.message.now)
        × (1 ≤ length c.front.actor.now)
        × (length c.front.actor.now ≤ longest_actor)
        × AllByRecursion IsOpWithin c.ops };
}

impl<'a> ChangeRef<'a> {
    /// The change with these contents of a chunk (Automerge Binary Document Format, "Change Chunks"). CompressedColumn
    /// where the parts in front of the columns can be read and list a column that is compressed by DEFLATE, else BadChange
    /// where no fine change has them. It takes no memory: that the contents are the one canonical spelling is read off the
    /// columns, and nothing is written again.
    pub fn read(contents: &'a [u8]) -> Result<ChangeRef<'a>, ChangeFault>
        ensures judged { Judges contents.now result }
        ensures free { result ≡ Err ChangeFault.NoMemory → ⊥ }
    {
        length_known(contents);
        let Some((front, rest)) = FrontRef::read(contents) else {
            return Err(ChangeFault::BadChange);
        };
        if front.listed.compressed() {
            return Err(ChangeFault::CompressedColumn);
        }
        let Some(behind) = behind_front(&front, rest) else {
            return Err(ChangeFault::BadChange);
        };
        if !are_fine(&front, behind.message, &behind.ops, behind.extra) {
            return Err(ChangeFault::BadChange);
        }
        if !is_canonical(&front, &behind) {
            return Err(ChangeFault::BadChange);
        }
        Ok(ChangeRef {
            front,
            message: behind.message,
            ops: behind.ops,
            extra: behind.extra,
        })
    }

    /// The changes on which this one depends, by their hashes, ascending.
    pub fn deps(&self) -> HashList<'a>
        ensures { result ≡ self.now.deps }
    {
        HashList::over(self.front.hashes, self.front.count)
    }

    /// The author.
    pub fn actor(&self) -> &'a [u8]
        ensures { result.now ≡ self.now.actor }
    {
        self.front.actor
    }

    /// 1 for the author's first change, and one more for each later one.
    pub fn seq(&self) -> u64
        ensures { result ≡ self.now.seq }
    {
        self.front.seq
    }

    /// The counter of its first operation. Each later one has the next counter.
    pub fn start(&self) -> u64
        ensures { result ≡ self.now.start }
    {
        self.front.start
    }

    /// When it was made, in milliseconds since 1970.
    pub fn time(&self) -> i64
        ensures { result ≡ self.now.time }
    {
        self.front.time
    }

    /// What its author noted about it, often nothing.
    pub fn message(&self) -> &'a str
        ensures { result.now ≡ self.now.message }
    {
        self.message
    }

    /// How many operations there are.
    pub fn count(&self) -> u64
        ensures { result ≡ length self.now.ops }
    {
        self.ops.left()
    }

    /// The operations, one after another.
    pub fn ops(&self) -> OpCursor<'a>
        ensures { result ≡ self.now.ops }
    {
        self.ops.again()
    }

    /// The bytes behind the columns.
    pub fn extra(&self) -> &'a [u8]
        ensures { result.now ≡ self.now.extra }
    {
        self.extra
    }

    /// The change, owned.
    pub fn to_owned(&self, alloc: Global) -> Result<Change, AllocError>
        ensures { IfOk result (λ c. c ≡ self.now) }
    {
        let mut actors = SharedActors::new(alloc);
        let mut ops = self.ops.again();
        change_in(
            alloc,
            &mut actors,
            &self.front,
            self.message,
            &mut ops,
            self.extra,
        )
    }
}
