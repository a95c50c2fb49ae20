//! Room for what comes.
ghost use Rattle.std.specs.Prelude.{◌≡◌};

use am_fits::OpIndex;
use am_types::{Change, Hash};

// How many operations these changes have. No contract asks for it: it tells how much room to take.
fn total_of(changes: &[(Hash, Change)]) -> usize {
    let mut total = 0usize;
    for i in 0..changes.len() {
        total = total.saturating_add(changes[i].1.ops.len());
    }
    total
}

/// The index, with room for the operations of these changes, so that what is kept of them isn't moved again and again. Where
/// memory for it is wanting there is none, and each takes its own as it comes.
pub fn with_room(mut index: OpIndex, changes: &[(Hash, Change)]) -> OpIndex
    ensures { result ≡ index }
{
    let _ = index.reserve(total_of(changes));
    index
}
