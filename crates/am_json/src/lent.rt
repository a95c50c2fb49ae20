//! Entries that are lent while their text is made.
ghost use Rattle.std.specs.Prelude.{◌≡◌, IsAscii};
ghost use Rattle.am_types.specs.Views.{id_of, key_of, value_of, entry_of};
ghost use Rattle.am_json.specs.Stretches.{bare};

use crate::unseen::Unseen;
use am_types::{EntryRef, IdRef, KeyRef, ObjRef, ValueRef};
use std::marker::Model;
use std::snapshot::Snapshot;

// A lent entry, and the letters that come right before it. Of its object only the contract knows: who holds the entries
// knows where those of each object begin. Of the entries that the letters stand for only the contract knows too.
#[derive(Drop)]
pub struct Lent<'a> {
    object: Snapshot<ObjRef<'a>>,
    stands: Unseen,
    letters: &'a str,
    slot: KeyRef<'a>,
    id: IdRef<'a>,
    raw: &'a [u8],
    action: u8,
    kind: u8,
    total: i128,
}

impl<'a> Model for Lent<'a> {
    ghost use Rattle.std.specs.Prelude.{IsAscii};
    ghost use Rattle.am_json.specs.Stretches.{Stretch};

    ghost Value = { Stretch };

    ghost use Rattle.am_types.specs.Views.{id_of, object_of, key_of};

    ghost view = { λ l. record {
      letters = l.stands.entries;
      bytes = l.letters.now;
      entry = record {
        obj = object_of l.object.value;
        slot = key_of l.slot;
        id = id_of l.id;
        action = l.action;
        value = record { kind = l.kind; raw = l.raw.now };
        total = l.total;
      };
    } };

    ghost invariant = { λ l. IsAscii l.letters.now };
}

impl<'a> Lent<'a> {
    #[inline(always)]
    pub fn of(entry: EntryRef<'a>) -> Self
        ensures { result ≡ bare (entry_of entry.entry) }
    {
        Lent::behind("", Unseen::none(), entry)
    }

    // The entry, and letters before it.
    #[inline(always)]
    pub fn behind(letters: &'a str, stands: Unseen, entry: EntryRef<'a>) -> Self
        requires { IsAscii letters.now }
        ensures { result ≡ record { letters = stands.entries; bytes = letters.entry.now; entry = entry_of entry.entry } }
    {
        Lent {
            object: Snapshot::of(&entry.obj),
            stands,
            letters,
            slot: entry.slot,
            id: entry.id,
            raw: entry.value.raw,
            action: entry.action,
            kind: entry.value.kind,
            total: entry.total,
        }
    }

    pub fn letters(&self) -> &'a str
        ensures text { result.now ≡ self.now.bytes }
        ensures ascii { IsAscii result.now }
    {
        self.letters
    }

    pub fn slot(&self) -> KeyRef<'a>
        ensures { key_of result ≡ self.now.entry.slot }
    {
        self.slot
    }

    pub fn id(&self) -> IdRef<'a>
        ensures { id_of result ≡ self.now.entry.id }
    {
        self.id
    }

    pub fn action(&self) -> u8
        ensures { result ≡ self.now.entry.action }
    {
        self.action
    }

    pub fn value(&self) -> ValueRef<'a>
        ensures { value_of result ≡ self.now.entry.value }
    {
        ValueRef {
            kind: self.kind,
            raw: self.raw,
        }
    }

    pub fn total(&self) -> i128
        ensures { result ≡ self.now.entry.total }
    {
        self.total
    }
}
