//! The index of the operations of a set.
ghost use Rattle.std.specs.Prelude.{◌≡◌, ◌++◌, ◌∷◌, [], List, OnOk, OnErr};
ghost use Rattle.am_types.specs.declared.Change.{Change as AChange};
ghost use Rattle.am_types.specs.Totals.{totals_of};
ghost use Rattle.am_fits.specs.Indexes.{index_of, index_with, ForChanges, MayAdmit};
ghost use Rattle.am_fits.specs.Tables.{facts_in, IsTable};

use crate::table::Table;
use am_types::{ReadChange, Totals, Twin};
use std::alloc::{AllocError, Global};
use std::marker::Model;

/// What the verdict asks of the operations of a set: their facts by their ids, and the totals that have limits.
/// Contracts see it as the list of the facts, in the order in which they came, and the totals.
#[derive(Drop)]
pub struct OpIndex {
    table: Table,
    totals: Totals,
}

impl Model for OpIndex {
    ghost use Rattle.am_fits.specs.Indexes.{Indexed};

    ghost Value = { Indexed };

    ghost use Rattle.am_fits.specs.Tables.{facts_in, IsTable};

    ghost view = { λ x. record { facts = facts_in x.table; totals = x.totals } };

    ghost invariant = { λ x. IsTable x.table };
}

impl OpIndex {
    /// The index of no changes.
    pub fn new(alloc: Global) -> Self
        ensures { result ≡ index_of [] }
    {
        OpIndex {
            table: Table::new(alloc),
            totals: Totals {
                changes: 0,
                operations: 0,
                preds: 0,
                links: 0,
            },
        }
    }

    /// Takes the change in, which is a valid set together with those that were taken in before. Without memory the
    /// index stays as it was.
    pub fn admit<C: ReadChange>(&mut self, alloc: Global, change: &C) -> Result<(), AllocError>
        requires { MayAdmit self.old (C.change change.now) }
        ensures ok { OnOk result (self.new ≡ index_with self.old (C.change change.now)) }
        ensures changes { OnOk result (ForChanges self.old (λ cs. self.new ≡ index_of (cs ++ C.change change.now ∷ []))) }
        ensures err { OnErr result (self.new ≡ self.old) }
    {
        let totals = self.totals.with(change);
        self.table.add(alloc, change)?;
        self.totals = totals;
        Ok(())
    }

    /// Makes room for so many more operations, so that what is kept of them isn't moved again and again.
    pub fn reserve(&mut self, operations: usize) -> Result<(), AllocError>
        ensures { self.new ≡ self.old }
    {
        self.table.reserve(operations)
    }

    /// Keeps the changes that were taken in first and have these totals. It takes no memory.
    pub fn cut(&mut self, totals: Totals)
        ensures { (kept others : List AChange) → self.old ≡ index_of (kept ++ others) → totals ≡ totals_of kept → self.new ≡ index_of kept }
    {
        self.table.cut(totals.operations as usize);
        self.totals = totals;
    }

    /// The operations.
    pub(crate) fn table(&self) -> &Table
        ensures facts { facts_in result.now ≡ self.now.facts }
        ensures table { IsTable result.now }
    {
        &self.table
    }

    /// How many changes were taken in, and how many operations, predecessors and dependencies they have in all.
    pub fn totals(&self) -> Totals
        ensures { result ≡ self.now.totals }
    {
        self.totals
    }
}

impl Twin for OpIndex {
    fn copy(&self, alloc: Global) -> Result<OpIndex, AllocError> {
        let table = self.table.copy(alloc)?;
        Ok(OpIndex {
            table,
            totals: self.totals,
        })
    }
}
