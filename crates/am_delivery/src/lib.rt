//! Deliveries of changes to a closed and a waiting set: their laws, and one call that carries a delivery out.
#![tactic(auto)]

mod admitting;
mod arriving;
mod closed;
mod delivering;
mod finishing;
mod laws;
mod pending;
mod removing;

pub use arriving::is_same;
pub use closed::Closed;
pub use delivering::{Settled, deliver};
pub use laws::{
    both_come_back, comes_back, fits_in_every_listing, held_is_skipped, joined_is_valid,
    joins_no_more, keeps_what_came, listing_is_free, order_is_free, part_is_valid, rest_completes,
    stays_stored, waiting_sorts_alike,
};
pub use pending::Pending;
