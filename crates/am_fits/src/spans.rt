//! The ids of operations, change by change.
ghost use Rattle.std.specs.Prelude.{◌≡◌, ◌≤◌, ◌-◌, length, take};
ghost use Rattle.am_fits.specs.Runs.{keys_of};

/// The ids of the operations of a change.
#[derive(Clone, Copy, Debug)]
pub(crate) struct Span {
    /// The number of the author.
    pub author: usize,
    /// The first counter.
    pub start: u64,
    /// How many operations there are.
    pub count: usize,
}

/// Drops the last ids, so many of them.
pub(crate) fn drop_last(spans: &mut Vec<Span>, extra: usize)
    requires { extra ≤ length (keys_of spans.old.items) }
    ensures { keys_of spans.new.items ≡ take (length (keys_of spans.old.items) - extra) (keys_of spans.old.items) }
{
    let mut left = extra;
    let mut whole = spans.len();
    'spans: while whole > 0 {
        let last = whole - 1;
        let count = spans[last].count;
        if left < count {
            spans[last].count = count - left;
            spans.truncate(whole);
            return;
        }
        left -= count;
        whole = last;
    }
    spans.clear();
}
