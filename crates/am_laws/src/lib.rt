//! Laws over the definitions of histories. Each function does nothing; its contract is the law.
#![tactic(auto)]

mod laws;

pub use laws::{
    actors_are_authors, ancestors_are_least, ancestors_are_read, ancestors_keep_order,
    ancestors_stay, depth_counts, elements_follow_references, elements_of_part, first_bad_is_least,
    fits_exactly, heads_reach_all, ids_are_distinct, listing_is_free, numbers_are_shortest,
    orders_are_strict, references_are_there, same_is_equal, settles_in_turn, settling_keeps_order,
    sorting_is_free, table_is_within, valid_sets_keep_rules, verdicts_are_first, views_stay,
};
