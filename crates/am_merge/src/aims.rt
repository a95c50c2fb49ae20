//! Who names which of some operations, all by their places: once these are known, nothing is sorted or compared.
ghost use Rattle.std.specs.Prelude.{◌≡◌, ◌<◌, ◌++◌, All, IfOk, OnOk, length, map};
ghost use Rattle.am_types.specs.Views.{id_of};
ghost use Rattle.am_places.specs.Numbered.{operation_of};
ghost use Rattle.am_merge.specs.Aims.{AreLinked, namers, places_to};

use am_places::Numbered;
use am_types::IdRef;
use std::alloc::{AllocError, Global};

/// An operation that names another: the places of both.
#[derive(Clone, Copy)]
pub struct Aim {
    pub target: u32,
    pub place: u32,
}

/// Who names whom. For each operation it is known where the aims at it begin, and for each aim which one at the same
/// operation comes next: places of aims, or how many there are.
#[derive(Drop)]
pub struct Aims {
    aims: Vec<Aim>,
    heads: Vec<usize>,
    nexts: Vec<usize>,
}

impl Aims {
    /// These aims, at so many operations. They are linked from the last to the first.
    pub fn of(alloc: Global, aims: Vec<Aim>, count: usize) -> Result<Aims, AllocError>
        requires { All (λ a. a.target < count) aims.items }
        ensures aims { IfOk result (λ t. t.aims.items ≡ aims.items) }
        ensures heads { IfOk result (λ t. length t.heads.items ≡ count) }
        ensures linked { IfOk result AreLinked }
    {
        let mut heads = vec![in alloc; aims.len(); count]?;
        let mut nexts = vec![in alloc; aims.len(); aims.len()]?;
        for i in (0..aims.len()).rev() {
            let target = aims[i].target as usize;
            nexts[i] = heads[target];
            heads[target] = i;
        }
        Ok(Aims { aims, heads, nexts })
    }

    /// The ids of the operations that name the one at a place go behind the others.
    pub fn push_ids<'a>(
        &self,
        ids: &mut Vec<IdRef<'a>>,
        operations: &[Numbered<'a>],
        at: usize,
    ) -> Result<(), AllocError>
        requires linked { AreLinked self.now }
        requires at { at < length self.now.heads.items }
        requires places { All (λ a. a.place < length operations.now) self.now.aims.items }
        ensures { OnOk result (map id_of ids.new.items ≡ map id_of ids.old.items ++ map (λ x. x.id) (namers (map operation_of operations.now) self.now.aims.items at)) }
    {
        // (without aims no place is looked up, which would wait for memory)
        if self.aims.is_empty() {
            return Ok(());
        }
        let mut next = self.heads[at];
        while next < self.aims.len() {
            let aim = self.aims[next];
            ids.push(operations[aim.place as usize].id())?;
            next = self.nexts[next];
        }
        Ok(())
    }

    /// The places of the operations that name the one at a place go behind the others.
    pub fn push_places(&self, places: &mut Vec<u32>, at: usize) -> Result<(), AllocError>
        requires linked { AreLinked self.now }
        requires at { at < length self.now.heads.items }
        ensures { OnOk result (places.new.items ≡ places.old.items ++ places_to self.now.aims.items at) }
    {
        if self.aims.is_empty() {
            return Ok(());
        }
        let mut next = self.heads[at];
        while next < self.aims.len() {
            let aim = self.aims[next];
            places.push(aim.place)?;
            next = self.nexts[next];
        }
        Ok(())
    }
}
