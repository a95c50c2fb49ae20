//! The law of the order of elements. The function does nothing; its contract is the law.
ghost use Rattle.am_chain.specs.Laws.{OrderIsFree};

/// In whatever order the elements of a list are inserted, references before what refers to them, they stand in the order
/// of elements.
#[tactic(auto, using(crate::proofs::Passing::order_is_free))]
pub fn order_is_free()
    ensures { OrderIsFree }
{}
