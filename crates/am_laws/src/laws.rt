//! Laws over the definitions. Each function does nothing; its contract is the law.
ghost use Rattle.am_laws.specs.Tables.{ActorsAreAuthors, TableIsWithin};
ghost use Rattle.am_laws.specs.Laws.{OrdersAreStrict, SortingIsFree, NumbersAreShortest, SameIsEqual, AncestorsAreLeast, AncestorsKeepOrder, FitsExactly, VerdictsAreFirst, FirstBadIsLeast, ValidSetsKeepRules, IdsAreDistinct, ReferencesAreThere, ElementsFollowReferences, SettlesInTurn, SettlingKeepsOrder, ListingIsFree, DepthCounts, ElementsOfPart, AncestorsAreRead, ViewsStay, AncestorsStay, HeadsReachAll};

/// Ids are totally ordered, hashes too, and only equal ones tie.
#[tactic(auto, using(crate::proofs::Proved::orders_are_strict))]
pub fn orders_are_strict()
    ensures { OrdersAreStrict }
{}

/// Sorting ids or hashes keeps the elements, puts them in order, and gives the same however they were listed. Sorting
/// operations of which those with one id are one gives the same however they were listed.
#[tactic(auto, using(crate::proofs::Proved::sorting_is_free))]
pub fn sorting_is_free()
    ensures { SortingIsFree }
{}

/// The number that fills some bytes is the one of which they are the shortest spelling, within 64 bits.
#[tactic(auto, using(crate::proofs::Proved::numbers_are_shortest))]
pub fn numbers_are_shortest()
    ensures { NumbersAreShortest }
{}

/// Comparing two changes part by part is equality.
#[tactic(auto, using(crate::proofs::Proved::same_is_equal))]
pub fn same_is_equal()
    ensures { SameIsEqual }
{}

/// The ancestors of some members are the least part of the set that has these and with each the members that it depends
/// on.
pub fn ancestors_are_least()
    ensures { AncestorsAreLeast }
{}

/// The ancestors of some members stand in the order in which the set lists them.
pub fn ancestors_keep_order()
    ensures { AncestorsKeepOrder }
{}

/// A change fits a set exactly where none of the five reasons applies.
#[tactic(auto, using(crate::proofs::Proved::fits_exactly))]
pub fn fits_exactly()
    ensures { FitsExactly }
{}

/// Each reason against a change is the verdict, with what it tells, exactly where it applies and none before it does;
/// `Fits` exactly where none does.
pub fn verdicts_are_first()
    ensures { VerdictsAreFirst }
{}

/// The first operation with bad references is the one at the least place where there is such, and there is none exactly
/// where no operation has bad references. Those before an operation are known to it.
pub fn first_bad_is_least()
    ensures { FirstBadIsLeast }
{}

/// A valid set is closed, no two of its members have one hash, each of them may come, and it is within the limits.
pub fn valid_sets_keep_rules()
    ensures { ValidSetsKeepRules }
{}

/// In a valid set no two operations have one id.
pub fn ids_are_distinct()
    ensures { IdsAreDistinct }
{}

/// In a valid set an element that an operation names is that of an insertion of lesser id into the same object. An
/// insertion names the front or such an element.
pub fn references_are_there()
    ensures { ReferencesAreThere }
{}

/// In a valid set each insertion into an object gives one element of it, which stands behind its reference.
pub fn elements_follow_references()
    ensures { ElementsFollowReferences }
{}

/// Settling admits the ready changes one by one, the one of least hash first, ends, and leaves none ready.
#[tactic(auto, using(crate::proofs::Proved::settles_in_turn))]
pub fn settles_in_turn()
    ensures { SettlesInTurn }
{}

/// What settling leaves in the closed set joins one after the other, where it did before.
#[tactic(auto, using(crate::proofs::Proved::settling_keeps_order))]
pub fn settling_keeps_order()
    ensures { SettlingKeepsOrder }
{}

/// Elements, entries, rows, heads, the canonical order and the table of a valid set, and what is visible at any heads,
/// don't depend on how it is listed.
pub fn listing_is_free()
    ensures { ListingIsFree }
{}

/// The depth of a change is 0 without dependencies, else one more than the greatest depth of a dependency.
#[tactic(auto, using(crate::proofs::Proved::depth_counts))]
pub fn depth_counts()
    ensures { DepthCounts }
{}

/// The elements of a part that respects references are those of the whole without the others, in the same order.
#[tactic(auto, using(crate::proofs::Proved::elements_of_part))]
pub fn elements_of_part()
    ensures { ElementsOfPart }
{}

/// The ancestors in a valid set are such a part, whose operations are those that its clock covers.
pub fn ancestors_are_read()
    ensures { AncestorsAreRead }
{}

/// What is visible at members of a valid set is the same in every valid set that has all its members.
pub fn views_stay()
    ensures { ViewsStay }
{}

/// The ancestors of members of a valid set are listed alike when other members are listed behind them.
#[tactic(auto, using(crate::proofs::Proved::ancestors_stay_valid))]
pub fn ancestors_stay()
    ensures { AncestorsStay }
{}

/// Each member of a valid set is an ancestor of its heads, and the heads are held.
pub fn heads_reach_all()
    ensures { HeadsReachAll }
{}

/// The canonical table of a valid set is within the limits of one document, and each actor that it names is listed.
pub fn table_is_within()
    ensures { TableIsWithin }
{}

/// The actors that a valid set uses are the authors of its members: what its operations name was made by one of them.
pub fn actors_are_authors()
    ensures { ActorsAreAuthors }
{}
