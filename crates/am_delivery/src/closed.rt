//! A closed set of changes that can grow.
ghost use Rattle.std.specs.Prelude.{◌≡◌, ◌++◌, ◌∷◌, [], List, All, IfOk, OnOk, OnErr, IsTrue, Some, map, option_map};
ghost use Rattle.am_types.specs.Members.{Member, changes, member, holds, holds_deps};
ghost use Rattle.am_types.specs.Same.{same_change};
ghost use Rattle.am_types.specs.Fine.{Fine};
ghost use Rattle.am_types.specs.Verdicts.{verdict};
ghost use Rattle.am_types.specs.ValidSets.{Valid, Joins};

use am_types::{Change, Hash, Verdict};
use std::alloc::{AllocError, Global};

/// A closed set of changes that can grow. It is at rest where its members are its base: no change has joined it since it
/// was handed over or finished. Only at rest is it asked for a change, so it needn't keep those that join it.
pub trait Closed {
    ghost members: { Self → List Member };

    // The members at rest, which stay as they are while changes join.
    ghost base: { Self → List Member };

    // What is known of each change that comes, beside its hash.
    ghost admits: { Member → Type 0 };

    /// Whether a change has this hash.
    fn holds(&self, hash: &Hash) -> bool
        ensures { result ≡ holds (members self.now) hash.now };

    /// Whether the change that has this hash is equal to that one. The set is at rest.
    fn is_same(&self, alloc: Global, hash: &Hash, change: &Change) -> Result<bool, AllocError>
        requires rest { members self.now ≡ base self.now }
        requires held { IsTrue (holds (members self.now) hash.now) }
        ensures same { IfOk result (λ same. option_map (λ m. same_change m.change change.now) (member (members self.now) hash.now) ≡ Some same) };

    /// Whether a change fits, or the first reason why it doesn't.
    fn judge(&self, alloc: Global, change: &Change) -> Result<Verdict, AllocError>
        requires valid { Valid (members self.now) }
        requires deps { IsTrue (holds_deps (members self.now) change.now) }
        requires fine { Fine change.now }
        ensures { IfOk result (λ answer. answer ≡ verdict (members self.now) change.now) };

    /// Takes a change in. Without memory nothing is said of what the members have become, but what stays has stayed.
    fn join(&mut self, alloc: Global, hash: Hash, change: &Change) -> Result<(), AllocError>
        requires valid { Valid (members self.old) }
        requires joins { Joins (members self.old) (record { hash = hash; change = change.now }) }
        ensures joined { OnOk result (members self.new ≡ members self.old ++ record { hash = hash; change = change.now } ∷ []) }
        ensures base { base self.new ≡ base self.old };

    /// Brings the set to rest with the changes that have joined, which are lent in the order in which they did. It is asked
    /// once, when a delivery is settled. Without memory what was at rest has stayed.
    fn finish(&mut self, alloc: Global, joined: &[&Change]) -> Result<(), AllocError>
        requires joined { (E : List Member) × (members self.old ≡ base self.old ++ E) × (changes E ≡ map (λ c. c.now) joined.now) × All admits E }
        ensures members { OnOk result (members self.new ≡ members self.old) }
        ensures rest { OnOk result (base self.new ≡ members self.old) }
        ensures base { OnErr result (base self.new ≡ base self.old) };
}
