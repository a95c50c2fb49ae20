//! Entries that only contracts see.
ghost use Rattle.std.specs.Prelude.{◌≡◌, List, []};
ghost use Rattle.std.specs.Borrow.{ftrue};
ghost use Rattle.am_types.specs.declared.Entry.{Entry};
ghost use Rattle.am_json.specs.Turns.{between};

use am_types::EntrySource;
use std::marker::Model;
use std::snapshot::Snapshot;

// Entries that no code reads. They take no memory.
#[derive(Drop)]
pub struct Unseen {
    pub ghost entries: { List Entry },
}

impl Model for Unseen {
    ghost also_owns = { λ _. ftrue };
}

impl Unseen {
    // None.
    pub fn none() -> Unseen
        ensures { result.entries ≡ [] }
    {
        Unseen::named()
    }

    // Those that the caller names.
    fn named() -> Unseen
        ghost es: { List Entry }
        ensures { result.entries ≡ es }
    {
        Unseen {}
    }
}

// Those that the caller names, of two states of a value.
fn named_of<X>(before: &Snapshot<X>, after: &X) -> Unseen
    ghost es: { List Entry }
    ensures { result.entries ≡ es }
{
    let _ = before;
    let _ = after;
    Unseen::named()
}

// What a source handed out between two states, but for the last of it.
pub fn handed_out<'a, S: EntrySource<'a>>(before: &Snapshot<S>, after: &S) -> Unseen
    ensures { result.entries ≡ between (S.entries before.now.value) (S.entries after.now) }
{
    named_of(before, after)
}
