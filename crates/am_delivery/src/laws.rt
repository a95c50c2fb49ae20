//! Laws of validity and delivery. Each function does nothing; its contract is the law.
ghost use Rattle.am_delivery.specs.Laws.{FitsInEveryListing, ComesBack, PartIsValid, RestCompletes, BothComeBack, OrderIsFree, StaysStored, ListingIsFree, HeldIsSkipped, KeepsWhatCame, JoinsNoMore, JoinedIsValid, WaitingSortsAlike};

/// In a valid set each change fits those before it, in every listing with dependencies first.
pub fn fits_in_every_listing()
    ensures { FitsInEveryListing }
{}

/// A valid set that is delivered to empty sets in any order is the closed set, and nothing is rejected.
pub fn comes_back()
    ensures { ComesBack }
{}

/// A valid set with a change that joins it is valid.
pub fn joined_is_valid()
    ensures { JoinedIsValid }
{}

/// The ancestors of any hashes in a valid set are a valid set.
#[tactic(auto, using(crate::proofs::Deliveries::part_is_valid))]
pub fn part_is_valid()
    ensures { PartIsValid }
{}

/// The rest of a valid set, delivered to the ancestors of some hashes in any order, completes it.
pub fn rest_completes()
    ensures { RestCompletes }
{}

/// The changes of both sets, delivered to empty ones in any order, give both sets back.
pub fn both_come_back()
    ensures { BothComeBack }
{}

/// Where no two changes of some deliveries clash, the sets that stand for these depend on the changes alone: not on
/// their order, their repeats, or how they were shared out.
pub fn order_is_free()
    ensures { OrderIsFree }
{}

/// Deliveries of fine changes leave a valid closed set, and waiting changes that lack a dependency.
pub fn stays_stored()
    ensures { StaysStored }
{}

/// How the two sets are listed doesn't matter to a delivery. The reports are equal, in order.
pub fn listing_is_free()
    ensures { ListingIsFree }
{}

/// What is held is skipped.
pub fn held_is_skipped()
    ensures { HeldIsSkipped }
{}

/// Each change of the two sets that a delivery leaves was in one of them, or came.
pub fn keeps_what_came()
    ensures { KeepsWhatCame }
{}

/// A delivery leaves no more closed changes than there were and came.
pub fn joins_no_more()
    ensures { JoinsNoMore }
{}

/// Sorted by hash, the waiting changes are one list, however they are listed.
pub fn waiting_sorts_alike()
    ensures { WaitingSortsAlike }
{}
