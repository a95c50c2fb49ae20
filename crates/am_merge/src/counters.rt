//! The counters of what added operations name.
ghost use Rattle.std.specs.Prelude.{◌≡◌, ◌++◌, Contains, false, IfOk, OnOk};
ghost use Rattle.std.specs.List.Sorted.{IsSorted};
ghost use Rattle.std.specs.Ordering.{nat_cmp};
ghost use Rattle.am_merge.specs.Naming.{AreCounters, counters_in};

use crate::naming::{Naming, Tables};
use std::alloc::{AllocError, Global};

// Appends the counter that each of the table names.
fn push_counters(counters: &mut Vec<u64>, table: &[Naming<'_>]) -> Result<(), AllocError>
    ensures { OnOk result (counters.new.items ≡ counters.old.items ++ counters_in table.now) }
{
    for i in 0..table.len() {
        counters.push(table[i].id.counter)?;
    }
    Ok(())
}

/// The counters of all ids that the tables name, ascending.
pub fn counters_of(alloc: Global, tables: &Tables<'_>) -> Result<Vec<u64>, AllocError>
    ensures { IfOk result (λ counters. AreCounters tables.now counters.items) }
{
    let mut counters = Vec::new(alloc);
    push_counters(&mut counters, tables.named.as_slice())?;
    push_counters(&mut counters, tables.hanging.as_slice())?;
    counters.sort()?;
    Ok(counters)
}

/// Whether the counter is one of these, which ascend.
pub fn is_named(counters: &[u64], counter: u64) -> bool
    requires { IsSorted nat_cmp counters.now }
    ensures { result ≡ false → Contains counters.now counter → ⊥ }
{
    counters.binary_search(&counter).is_ok()
}
