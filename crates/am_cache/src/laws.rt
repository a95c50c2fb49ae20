//! The laws of a cache that was used often. Each function does nothing; its contract is the law.
ghost use Rattle.am_cache.specs.Uses.{WasPutLast, StaysAmongFifteen, GoesAfterSixteen};

/// What is found is what was put last for the view.
#[tactic(auto, using(crate::proofs::LastPuts::was_put_last))]
pub fn was_put_last()
    ensures { WasPutLast }
{}

/// A view that was used last stays, with its text, while at most fifteen others are used.
#[tactic(auto, using(crate::proofs::Staying::stays_among_fifteen))]
pub fn stays_among_fifteen()
    ensures { StaysAmongFifteen }
{}

/// A view that isn't used goes when texts are put for sixteen others, whatever was kept before.
#[tactic(auto, using(crate::proofs::Going::goes_after_sixteen))]
pub fn goes_after_sixteen()
    ensures { GoesAfterSixteen }
{}
