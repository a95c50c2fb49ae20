//! Columns of runs: a list of items and nulls in runs, each a repeated item, a row of items, or nulls (Automerge Binary Document Format, run length encoding).
#![tactic(auto)]

mod apart;
mod counters;
mod cursor;
mod fault;
mod item;
mod judge;
mod kept;
mod laws;
mod leb;
mod list;
mod literal;
mod number;
mod numbers;
mod pending;
mod place;
mod run;
mod skim;
mod skipping;
mod taking;
mod text;
mod value;
mod writer;

pub use cursor::{RunCursor, one_list};
pub use fault::BadRun;
pub use item::{
    Item, SignedItem, TextItem, UnsignedItem, signed_items, text_items, unsigned_items,
};
pub use judge::is_canonical;
pub use laws::{
    canonical_spells, one_signed_list, one_spelled_list, one_text_list, one_unsigned_list,
};
pub use list::{Spells, push_list};
pub use numbers::{SignedCursor, UnsignedCursor};
pub use text::TextCursor;
pub use writer::{RunWriter, one_canonical_spelling};
