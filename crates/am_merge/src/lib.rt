//! The document of a larger set, part by part from that of a smaller one and the added changes.
#![tactic(auto)]

mod actors;
mod added;
mod aiming;
mod aims;
mod buckets;
mod carry;
mod counters;
mod documents;
mod fresh;
mod front;
mod guide;
mod laws;
mod lookup;
mod mentions;
mod metas;
mod naming;
mod order;
mod overview;
mod respelling;
mod rows;
mod spot;
mod starts;
mod stops;
mod suffix;
mod walk;

pub use documents::merge;
pub use laws::{
    actors_of_larger, authors_of_larger, changes_in_order, elements_by_rows, elements_walk_tree,
    heads_of_larger, joined_is_valid, merges_rows, merges_tables, metas_of_larger, plans_rows,
    rows_of_larger, rows_of_smaller, walk_goes_on, walks_elements, walks_rows,
};
pub use respelling::respelled;
