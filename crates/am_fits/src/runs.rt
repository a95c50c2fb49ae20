//! Where the operations of one author stand among all, by their counters.
ghost use Rattle.std.specs.Prelude.{◌≡◌, ◌<◌, ◌≤◌, ◌+◌, ◌^◌, ℕ, List, All, AllPairs, length, slice_index_or, nat_le, nat_lt, map, filter, true, false, IfSome, IfNone, OnOk, OnErr};
ghost use Rattle.am_fits.specs.Runs.{Apart, GoesOn, HasPlace, IsLengthened, Joins, run_below, runs_below, runs_in};

use std::alloc::{AllocError, Global};

/// Operations of one author whose counters and whose places count up by one.
#[derive(Clone, Copy, Debug)]
pub(crate) struct Run {
    /// The counter of the first.
    pub start: u64,
    /// The place of the first.
    pub first: usize,
    /// How many there are.
    pub count: usize,
}

impl Run {
    // Those at places below the bound.
    fn below(self, bound: usize) -> Run
        ensures { result ≡ run_below bound self }
    {
        Run {
            count: self.count.min(bound.saturating_sub(self.first)),
            ..self
        }
    }
}

// How many runs start at the counter or below. Mostly all do, or what is asked is near the end.
fn upto(runs: &[Run], counter: u64) -> usize
    requires { AllPairs Apart runs.now }
    ensures within { result ≤ length runs.now }
    ensures below { (k : ℕ) (d : Run) → k < result → (slice_index_or runs.now k d).start ≤ counter }
    ensures above { (k : ℕ) (d : Run) → result ≤ k → k < length runs.now → counter < (slice_index_or runs.now k d).start }
{
    let count = runs.len();
    if count == 0 {
        return 0;
    }
    if runs[count - 1].start <= counter {
        return count;
    }
    runs.partition_point(
        |run: &Run| -> bool
            ensures { result ≡ nat_le run.now.start counter }
        { run.start <= counter },
    )
}

/// The place of the operation with the counter.
pub(crate) fn place_of(runs: &[Run], counter: u64) -> Option<usize>
    requires apart { AllPairs Apart runs.now }
    requires low { All (λ r. r.first + r.count < 2 ^ 64) runs.now }
    ensures some { IfSome result (λ p. HasPlace runs.now counter p) }
    ensures none { IfNone result ((p : ℕ) → HasPlace runs.now counter p → ⊥) }
{
    let before = upto(runs, counter);
    if before == 0 {
        return None;
    }
    let run = runs[before - 1];
    let step = counter - run.start;
    if step < run.count as u64 {
        Some(run.first + step as usize)
    } else {
        None
    }
}

// The two runs as one, where the other goes on where this one ends.
fn joined(last: Run, run: Run) -> Option<Run>
    ensures some { IfSome result (GoesOn last run) }
    ensures none { IfNone result ((longer : Run) → GoesOn last run longer → longer.count < 2 ^ 64 → ⊥) }
{
    if run.start < last.start || run.first < last.first {
        return None;
    }
    if run.start - last.start != last.count as u64 || run.first - last.first != last.count {
        return None;
    }
    let count = last.count.checked_add(run.count)?;
    Some(Run { count, ..last })
}

// Makes the last run longer, where this one goes on where that ends. Says whether it did.
fn lengthen(runs: &mut Vec<Run>, run: Run) -> bool
    ensures longer { result ≡ true → IsLengthened runs.old.items run runs.new.items }
    ensures same { result ≡ false → runs.new.items ≡ runs.old.items }
    ensures none { result ≡ false → (new : List Run) (is : IsLengthened runs.old.items run new) → is.longer.count < 2 ^ 64 → ⊥ }
{
    let count = runs.len();
    if count == 0 {
        return false;
    }
    let Some(longer) = joined(runs[count - 1], run) else {
        return false;
    };
    runs[count - 1] = longer;
    true
}

/// Puts a run where its counters belong. Where it goes on where the last ends, as the changes of an author who writes alone
/// do, there is one run for both.
pub(crate) fn enter(runs: &mut Vec<Run>, run: Run) -> Result<(), AllocError>
    requires { AllPairs Apart runs.old.items }
    ensures ok { OnOk result (Joins runs.old.items run runs.new.items) }
    ensures longer { OnOk result ((new : List Run) (is : IsLengthened runs.old.items run new) → is.longer.count < 2 ^ 64 → IsLengthened runs.old.items run runs.new.items) }
    ensures err { OnErr result (runs.new.items ≡ runs.old.items) }
{
    if lengthen(runs, run) {
        return Ok(());
    }
    let place = upto(runs.as_slice(), run.start);
    runs.insert(place, run)?;
    Ok(())
}

// Keeps the operations at places below the bound.
fn cut(runs: &mut Vec<Run>, bound: usize)
    ensures { runs.new.items ≡ runs_below bound runs.old.items }
{
    runs.retain(
        |run: &Run| -> bool
            ensures { result ≡ nat_lt run.now.first bound }
        { run.first < bound },
    );
    for i in 0..runs.len() {
        runs[i] = runs[i].below(bound);
    }
}

/// Keeps the operations of each author at places below the bound.
pub(crate) fn cut_each(authors: &mut Vec<Vec<Run>>, bound: usize)
    ensures { (a : ℕ) → runs_in authors.new.items a ≡ runs_below bound (runs_in authors.old.items a) }
{
    for author in 0..authors.len() {
        cut(&mut authors[author], bound);
    }
}

/// Makes room for the runs of the author.
pub(crate) fn make_room(
    alloc: Global,
    authors: &mut Vec<Vec<Run>>,
    author: usize,
) -> Result<(), AllocError>
    ensures room { OnOk result (author < length authors.new.items) }
    ensures runs { (a : ℕ) → runs_in authors.new.items a ≡ runs_in authors.old.items a }
{
    'authors: while authors.len() <= author {
        authors.push(Vec::new(alloc))?;
    }
    Ok(())
}
