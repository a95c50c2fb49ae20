//! Laws over the definitions. Each function does nothing; its contract is the law.
ghost use Rattle.am_merge.specs.Laws.{JoinedIsValid, RowsOfSmaller, RowsOfLarger, ChangesInOrder, MetasOfLarger, HeadsOfLarger, ActorsOfLarger, AuthorsOfLarger, WalksElements, ElementsWalkTree, ElementsByRows, PlansRows, MergesRows, WalkGoesOn, WalksRows, MergesTables};

/// A set that joins in turn, and what joins it in turn, are valid.
#[tactic(auto, using(crate::proofs::Joined::joined_is_valid))]
pub fn joined_is_valid()
    ensures { JoinedIsValid }
{}

/// The rows of a larger set, without the added rows and successors, are those of the smaller.
#[tactic(auto, using(crate::proofs::Tables::rows_of_smaller))]
pub fn rows_of_smaller()
    ensures { RowsOfSmaller }
{}

/// The rows of a larger set are those of the smaller with their added successors, merged with the new rows.
#[tactic(auto, using(crate::proofs::Tables::rows_of_larger))]
pub fn rows_of_larger()
    ensures { RowsOfLarger }
{}

/// In the canonical order of a larger set the members of the smaller keep theirs, and their depths.
pub fn changes_in_order()
    ensures { ChangesInOrder }
{}

/// The change rows of a larger set are those of the smaller, their dependencies moved, and those of the added changes between
/// them.
#[tactic(auto, using(crate::proofs::ChangeRows::metas_of_larger))]
pub fn metas_of_larger()
    ensures { MetasOfLarger }
{}

/// The heads of a larger set are those of the smaller on which no added change depends, and those of the added changes.
#[tactic(auto, using(crate::proofs::Tables::heads_of_larger))]
pub fn heads_of_larger()
    ensures { HeadsOfLarger }
{}

/// The actors of a larger set are those of its two parts, merged, each once.
#[tactic(auto, using(crate::proofs::Tables::actors_of_larger))]
pub fn actors_of_larger()
    ensures { ActorsOfLarger }
{}

/// The actors of a larger set are those of the smaller and the authors of the added changes, ascending, each once.
#[tactic(auto, using(crate::proofs::Tables::authors_of_larger))]
pub fn authors_of_larger()
    ensures { AuthorsOfLarger }
{}

/// One walk over the elements of a list, with a stack of the new insertions, gives the elements of the larger set.
#[tactic(auto, using(crate::proofs::StackLaw::walks_elements))]
pub fn walks_elements()
    ensures { WalksElements }
{}

/// The elements of a list stand as the walk of the tree of references has them, each before its children, and of these the
/// greatest first.
#[tactic(auto, using(crate::proofs::StackLaw::elements_walk_tree))]
pub fn elements_walk_tree()
    ensures { ElementsWalkTree }
{}

/// The insert rows of an object are its elements, in order.
#[tactic(auto, using(crate::proofs::SlotLaws::elements_by_rows))]
pub fn elements_by_rows()
    ensures { ElementsByRows }
{}

/// The plan for the added operations, over the slots of the larger set in order, makes its rows of those of the smaller set.
#[tactic(auto, using(crate::proofs::PlanRows::plans_rows))]
pub fn plans_rows()
    ensures { PlansRows }
{}

/// The rows of the larger set are a function of the rows of the smaller and the added operations.
#[tactic(auto, using(crate::proofs::SlotLaws::merges_rows))]
pub fn merges_rows()
    ensures { MergesRows }
{}

/// The walk with the stack, turn by turn.
#[tactic(auto, using(crate::proofs::Goings::walk_goes_on))]
pub fn walk_goes_on()
    ensures { WalkGoesOn }
{}

/// One walk over the rows of the smaller set, with a stack of new operations, gives the rows of the larger.
pub fn walks_rows()
    ensures { WalksRows }
{}

/// The table of a larger set, part by part, from the smaller set's parts and the added members.
#[tactic(auto, using(crate::proofs::Tables::merges_tables))]
pub fn merges_tables()
    ensures { MergesTables }
{}
