//! How far the changes of one actor go.
ghost use Rattle.std.specs.Prelude.{◌≡◌, ◌<◌, ◌≤◌, ◌==◌, ℕ, length, if◌then◌else◌};
ghost use Rattle.am_graph.specs.Reaches.{higher, reach_at, Raised, Merged};

/// How far some changes of one actor go; both numbers are 0 where there is none.
#[derive(Clone, Copy, Debug, PartialEq, Eq)]
pub struct Reach {
    /// The greatest seq.
    pub seq: u64,
    /// The greatest sum of a start and a number of operations: the least counter above those of all their operations, but
    /// no less than any start.
    pub end: u64,
}

impl Reach {
    /// As far as the farther of the two.
    pub(crate) fn higher(self, other: Reach) -> Reach
        ensures { result ≡ higher self other }
    {
        Reach {
            seq: self.seq.max(other.seq),
            end: self.end.max(other.end),
        }
    }
}

/// Raises the entry of one author.
pub(crate) fn raise(table: &mut [Reach], author: usize, to: Reach)
    requires { author < length table.old }
    ensures { Raised table.old table.new author to }
{
    table[author] = table[author].higher(to);
}

/// Raises the entry of each author.
pub(crate) fn raise_all(table: &mut [Reach], to: &[Reach])
    requires { length to.now ≤ length table.old }
    ensures { Merged table.old table.new to.now }
{
    for i in 0..to.len() {
        table[i] = table[i].higher(to[i]);
    }
}
