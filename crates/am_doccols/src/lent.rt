//! Rows and change rows that are lent.
ghost use Rattle.std.specs.Prelude.{◌≡◌};
ghost use Rattle.am_doccols.specs.Lent.{row_with, meta_with};

use am_fields::text_in;
use am_types::{IdRef, KeyRef, Meta, ObjRef, Row, ValueRef};

/// A row without its successors, lent.
#[derive(Clone, Copy)]
pub struct RowFields<'a> {
    pub obj: ObjRef<'a>,
    pub key: KeyRef<'a>,
    pub id: IdRef<'a>,
    pub insert: bool,
    pub action: u8,
    pub value: ValueRef<'a>,
    pub expand: bool,
    pub mark: Option<&'a str>,
}

/// A change row without its dependencies, lent.
#[derive(Clone, Copy)]
pub struct MetaFields<'a> {
    pub actor: &'a [u8],
    pub seq: u64,
    /// The counter of the change's last operation.
    pub max: u64,
    pub time: i64,
    pub message: &'a str,
    pub extra: &'a [u8],
}

/// The fields of a row, lent.
pub fn fields_of(row: &Row) -> RowFields<'_>
    ensures { row_with result row.now.succs ≡ row.now }
{
    RowFields {
        obj: row.obj.lend(),
        key: row.key.lend(),
        id: row.id.lend(),
        insert: row.insert,
        action: row.action,
        value: row.value.lend(),
        expand: row.expand,
        mark: text_in(&row.mark),
    }
}

/// The fields of a change row, lent.
pub fn meta_fields_of(meta: &Meta) -> MetaFields<'_>
    ensures { meta_with result meta.now.deps ≡ meta.now }
{
    MetaFields {
        actor: meta.actor.as_slice(),
        seq: meta.seq,
        max: meta.max,
        time: meta.time,
        message: meta.message.as_str(),
        extra: meta.extra.as_slice(),
    }
}
