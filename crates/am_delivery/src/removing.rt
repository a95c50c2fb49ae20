//! Waiting changes are taken out.
ghost use Rattle.std.specs.Prelude.{◌≡◌, ◌≤◌, ◌+◌, ◌++◌, length, vec_capacity, vec_items, vec_len};
ghost use Rattle.am_delivery.specs.Waiting.{members_of, unboxed, waiting_of, remaining, taken_out};

use am_types::{Change, Hash};
use std::collections::BTreeMap;

/// Takes the changes with these hashes out.
pub fn remove_all(waiting: &mut BTreeMap<Hash, Box<Change>>, gone: &[Hash])
    ensures { waiting_of waiting.new ≡ remaining gone.now (waiting_of waiting.old) }
{
    for hash in gone {
        let _count = waiting.len();
        waiting.remove(hash);
    }
}

/// Takes the changes with these hashes out, each beside its hash, to a list that has room for them.
pub fn move_all(
    waiting: &mut BTreeMap<Hash, Box<Change>>,
    gone: &[Hash],
    taken: &mut Vec<(Hash, Box<Change>)>,
)
    requires { vec_len taken.old + length gone.now ≤ vec_capacity taken.old }
    ensures left { waiting_of waiting.new ≡ remaining gone.now (waiting_of waiting.old) }
    ensures taken { members_of (unboxed (vec_items taken.new)) ≡ members_of (unboxed (vec_items taken.old)) ++ taken_out gone.now (waiting_of waiting.old) }
{
    for hash in gone {
        let _count = waiting.len();
        if let Some(change) = waiting.remove(hash) {
            taken.push_reserved((*hash, change));
        }
    }
}
