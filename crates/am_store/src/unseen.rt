//! Changes that only contracts see.
ghost use Rattle.std.specs.Prelude.{◌≡◌, List, [], ◌∷◌, ◌++◌};
ghost use Rattle.std.specs.Borrow.{ftrue};
ghost use Rattle.am_types.specs.declared.Hash.{Hash as AHash};
ghost use Rattle.am_types.specs.declared.Change.{Change as AChange};

use am_types::{Change, Hash};
use std::marker::Model;

/// Changes, each beside its hash, that no code reads. It takes no memory, and its calls leave nothing behind when they run.
#[derive(Drop)]
pub struct Unseen {
    pub ghost entries: { List (AHash × AChange) },
}

impl Model for Unseen {
    ghost also_owns = { λ _. ftrue };
}

impl Unseen {
    /// None.
    pub fn none() -> Unseen
        ensures { result.entries ≡ [] }
    {
        Unseen {}
    }

    /// The same, and behind them one more.
    pub fn with(before: &Unseen, hash: &Hash, change: &Change) -> Unseen
        ensures { result.entries ≡ before.now.entries ++ (hash.now, change.now) ∷ [] }
    {
        Unseen {}
    }

    /// The first, and behind them the others.
    pub fn both(first: &Unseen, others: &Unseen) -> Unseen
        ensures { result.entries ≡ first.now.entries ++ others.now.entries }
    {
        Unseen {}
    }

    /// These.
    pub fn of(entries: &[(Hash, Change)]) -> Unseen
        ensures { result.entries ≡ entries.now }
    {
        let mut all = Unseen::none();
        for entry in entries {
            all = Unseen::with(&all, &entry.0, &entry.1);
        }
        all
    }

    /// The same.
    pub fn again(&self) -> Unseen
        ensures { result.entries ≡ self.now.entries }
    {
        Unseen::both(self, &Unseen::none())
    }
}
