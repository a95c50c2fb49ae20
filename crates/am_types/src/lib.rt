//! The plain data that all crates share, and the definitions of histories over it.
#![tactic(auto)]

pub mod actions;
mod actor;
mod byte_strings;
mod bytes;
mod change;
mod compare;
mod document;
mod entries;
mod hash;
mod ids;
pub mod kinds;
mod known;
mod limits;
mod list;
mod owned;
mod read_change;
mod read_op;
mod refs;
mod sharing;
mod text;
mod totals;
mod twin;
mod value;
mod verdict;

pub use actor::{ActorFault, ActorId};
pub use byte_strings::{compare_actors, compare_bytes, same_actor, same_bytes};
pub use bytes::Bytes;
pub use change::{Change, Op};
pub use compare::{compare_objects, same_id, same_key, same_object};
pub use document::{Document, Entry, Meta, Row, Table};
pub use entries::EntrySource;
pub use hash::Hash;
pub use ids::{Key, ObjId, OpId};
pub use known::{hash_known, hashes_known, slice_known, str_known};
pub use limits::{
    GREATEST_COUNTER, GREATEST_TIME, LONGEST_ACTOR, MOST_BYTES, MOST_CHANGES, MOST_OPERATIONS,
};
pub use list::List;
pub use read_change::ReadChange;
pub use read_op::ReadOp;
pub use refs::{EntryRef, IdRef, KeyRef, ObjRef, ValueRef, compare_ids};
pub use sharing::SharedActors;
pub use text::Text;
pub use totals::Totals;
pub use twin::Twin;
pub use value::RawValue;
pub use verdict::{Limit, Rejected, Verdict, Why};
