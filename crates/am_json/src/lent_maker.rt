//! The text of entries that are lent until it is made.
ghost use Rattle.std.specs.Prelude.{◌≡◌, ◌<◌, ◌≤◌, ◌++◌, ◌∷◌, [], Err, true, false, IfOk, OnOk, OnErr, IsErr};
ghost use Rattle.serde_json.specs.Data.{depth};
ghost use Rattle.serde_json.specs.Written.{compact_text};
ghost use Rattle.am_types.specs.Views.{entry_of};
ghost use Rattle.am_types.specs.EntryOrder.{IsInOrder};
ghost use Rattle.am_json.specs.Shown.{json_data};

use crate::blocks::Entries;
use crate::fault::JsonFault;
use crate::filled::fill;
use crate::form::Form;
use crate::written::written;
use am_types::{Bytes, EntryRef, EntrySource};
use std::alloc::{AllocError, Global};
use std::marker::Model;

/// A [`JsonMaker`](crate::JsonMaker) that copies no entry: each is lent until the text is made. A contract sees the form, the
/// entries that it was given, and whether memory was wanting; that is answered from then on.
#[derive(Drop)]
pub struct LentJsonMaker<'a> {
    form: Form,
    entries: Entries<'a>,
    failed: bool,
}

impl<'a> Model for LentJsonMaker<'a> {
    ghost use Rattle.am_json.specs.Held.{Held};

    ghost Value = { Held };

    ghost use Rattle.am_json.specs.Stretches.{spread, AreKept};

    ghost view = { λ m. record { form = m.form; entries = spread m.entries; failed = m.failed } };

    ghost invariant = { λ m. AreKept m.form m.entries };
}

impl<'a> LentJsonMaker<'a> {
    /// A maker without entries. Nothing is allocated yet.
    pub fn new(alloc: Global, form: Form) -> Self
        ensures { result ≡ record { form = form; entries = []; failed = false } }
    {
        LentJsonMaker {
            form,
            entries: Entries::new(alloc),
            failed: false,
        }
    }

    /// A maker without entries, with room for so many. Of the room only what entries come to fill is touched.
    pub fn with_room(alloc: Global, form: Form, count: usize) -> Result<Self, AllocError>
        ensures { IfOk result (λ maker. maker ≡ record { form = form; entries = []; failed = false }) }
    {
        Ok(LentJsonMaker {
            form,
            entries: Entries::with_room(alloc, count)?,
            failed: false,
        })
    }

    /// Adds an entry behind the others. With the entries before it must be in a document's order: the root's first, then
    /// those of the objects by ascending id, the names of one object by ascending bytes, those of one slot together by
    /// ascending id.
    #[inline(always)]
    pub fn push(&mut self, entry: EntryRef<'a>) -> Result<(), AllocError>
        requires { IsInOrder (self.old.entries ++ entry_of entry ∷ []) }
        ensures ok { OnOk result (self.new ≡ record { form = self.old.form; entries = self.old.entries ++ entry_of entry.entry ∷ []; failed = false }) }
        ensures err { OnErr result (self.new ≡ record self.old { failed = true }) }
        ensures failed { self.old.failed ≡ true → IsErr result }
    {
        if self.failed {
            return Err(AllocError);
        }
        match self.entries.push(entry) {
            Ok(()) => Ok(()),
            Err(error) => {
                self.failed = true;
                Err(error)
            }
        }
    }

    /// Takes all entries that a source hands out, behind those that are there, in the order that [`push`](Self::push) asks
    /// for. Where the winners alone are shown, letters of a text take no room of their own. An error says that memory was
    /// wanting; the maker is gone then.
    pub fn filled<S: EntrySource<'a>>(self, source: &mut S) -> Result<Self, AllocError>
        requires { IsInOrder (self.entries ++ S.entries source.old) }
        ensures ok { IfOk result (λ maker. maker ≡ record { form = self.entry.form; entries = self.entry.entries ++ S.entries source.old; failed = false }) }
        ensures read { OnOk result (S.entries source.new ≡ []) }
        ensures failed { self.entry.failed ≡ true → IsErr result }
    {
        if self.failed {
            return Err(AllocError);
        }
        let mut entries = self.entries;
        fill(self.form, &mut entries, source)?;
        Ok(LentJsonMaker {
            form: self.form,
            entries,
            failed: false,
        })
    }

    /// The text: the compact JSON (RFC 8259) of what the entries show, written straight into one buffer. It is refused
    /// where it nests deeper than 127, and want of memory that was answered before is answered again. If no two entries have
    /// one id, its time grows with their bytes and the logarithm of their number.
    pub fn finish(self, alloc: Global) -> Result<Bytes, JsonFault>
        ensures text { IfOk result (λ text. text ≡ compact_text (json_data self.entry.form self.entry.entries)) }
        ensures fits { IfOk result (λ _. depth (json_data self.entry.form self.entry.entries) ≤ 127) }
        ensures deep { result ≡ Err JsonFault.TooDeep → 127 < depth (json_data self.entry.form self.entry.entries) }
        ensures failed { self.entry.failed ≡ true → result ≡ Err JsonFault.NoMemory }
    {
        if self.failed {
            return Err(JsonFault::NoMemory);
        }
        written(alloc, self.form, &self.entries)
    }
}
