//! The changes of a document, rebuilt from its rows.
#![tactic(auto)]

mod author;
mod building;
mod change;
mod copying;
mod document;
mod fault;
mod gathered;
mod group;
mod joining;
mod judgement;
mod lasts;
mod lent;
mod lent_change;
mod lent_op;
mod lent_preds;
mod mention;
mod names;
mod order;
mod owned;
mod path;
mod rebuilt;
mod telling;

pub use document::{rebuild, rebuild_whole};
pub use fault::RebuildFault;
pub use rebuilt::Rebuilt;
