//! Guesses of where a table has the ids with a counter.
ghost use Rattle.std.specs.Prelude.{◌<◌};

use crate::buckets::{Buckets, HasCounter, bucket_of, buckets_between};
use std::alloc::{AllocError, Global};
use std::marker::Model;

/// From where a table has the ids of each bucket of counters. Contracts see the buckets alone: who takes a guess sees
/// whether it is right.
#[derive(Drop)]
pub struct Guide {
    buckets: Buckets,
    starts: Vec<u32>,
}

impl Model for Guide {
    ghost use Rattle.std.specs.Prelude.{◌<◌};
    ghost use Rattle.am_merge.specs.declared.buckets.Buckets.{Buckets};

    ghost Value = { Buckets };

    ghost view = { λ g. g.buckets };

    ghost invariant = { λ g. (0 < g.buckets.width) × (0 < g.buckets.count) };
}

// The buckets of a sorted table.
fn buckets_in<T: HasCounter>(table: &[T]) -> Buckets
    ensures width { 0 < result.width }
    ensures count { 0 < result.count }
{
    let Some(first) = table.first() else {
        return buckets_between(0, 0, 0);
    };
    let Some(last) = table.last() else {
        return buckets_between(0, 0, 0);
    };
    buckets_between(first.counter(), last.counter(), table.len())
}

// The buckets up to this one, as far as they have no start, start here.
fn start_up_to(starts: &mut Vec<u32>, bucket: usize, place: usize) -> Result<(), AllocError> {
    // (a guess needs no more bits)
    let place = place.min(u32::MAX as usize) as u32;
    for _ in starts.len()..bucket.saturating_add(1) {
        starts.push(place)?;
    }
    Ok(())
}

// Where each bucket of a sorted table starts.
fn starts_in<T: HasCounter>(
    alloc: Global,
    table: &[T],
    buckets: Buckets,
) -> Result<Vec<u32>, AllocError>
    requires width { 0 < buckets.width }
    requires count { 0 < buckets.count }
{
    let mut starts = Vec::new(alloc);
    for i in 0..table.len() {
        start_up_to(&mut starts, bucket_of(buckets, table[i].counter()), i)?;
    }
    Ok(starts)
}

impl Guide {
    /// A guide to a sorted table.
    pub fn of<T: HasCounter>(alloc: Global, table: &[T]) -> Result<Guide, AllocError> {
        let buckets = buckets_in(table);
        let starts = starts_in(alloc, table, buckets)?;
        Ok(Guide { buckets, starts })
    }

    /// About how many of the table have lesser counters.
    pub fn about(&self, counter: u64) -> usize {
        match self.starts.as_slice().get(bucket_of(self.buckets, counter)) {
            None => 0,
            Some(start) => *start as usize,
        }
    }
}
