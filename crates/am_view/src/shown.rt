//! The visible entries at a clock, one after another.
ghost use Rattle.std.specs.Prelude.{◌≡◌, ◌≤◌, ◌++◌, ◌∷◌, [], List, length, IfSome, IfNone, true, false};
ghost use Rattle.am_types.specs.declared.Entry.{Entry};
ghost use Rattle.am_types.specs.declared.Hash.{Hash};
ghost use Rattle.am_types.specs.Ancestors.{ancestors};
ghost use Rattle.am_types.specs.Members.{Member, changes};
ghost use Rattle.am_types.specs.Operations.{all_operations};
ghost use Rattle.am_types.specs.Replay.{replay};
ghost use Rattle.am_types.specs.Rows as document;
ghost use Rattle.am_types.specs.ValidSets.{Valid};
ghost use Rattle.am_types.specs.Views.{entry_of};
ghost use Rattle.am_graph.specs.Clocks.{covers, IsClockOf};
ghost use Rattle.am_types.specs.Letters.{IsRun};
ghost use Rattle.am_view.specs.Seen.{everything};
ghost use Rattle.am_view.specs.Steps.{walk};

use crate::asked::Asked;
use crate::scan::Scan;
use am_doc::DocRef;
use am_doccols::SuccCursor;
use am_graph::Clock;
use am_types::{EntryRef, EntrySource, KeyRef, actions, kinds};
use std::marker::Model;

// Whether an entry sets a letter of a list or a text. It tells where it is worth asking for more of them.
fn is_letter(entry: &EntryRef<'_>) -> bool {
    if !matches!(entry.slot, KeyRef::Elem(_)) {
        return false;
    }
    if entry.action != actions::SET {
        return false;
    }
    entry.value.kind == kinds::TEXT && entry.value.raw.len() == 1
}

/// The visible entries at a clock, read off the rows of a document one after another. A contract sees those that are left.
/// It takes no memory, and what it hands out is lent from the document.
#[derive(Drop)]
pub struct Shown<'a> {
    rows: Scan<'a>,
    clock: Asked<'a>,
    // The successors of the row that was read last. Their place is used again, so that no cursor over them is moved.
    succs: SuccCursor<'a>,
    // Whether the entry that `next_run` handed out last is a letter, behind which others are likely.
    is_in_text: bool,
}

impl<'a> Model for Shown<'a> {
    ghost use Rattle.std.specs.Prelude.{List};
    ghost use Rattle.am_types.specs.declared.Entry.{Entry};

    ghost Value = { List Entry };

    ghost use Rattle.am_view.specs.Seen.{seen_by};
    ghost use Rattle.am_view.specs.Steps.{walk};

    ghost view = { λ s. walk (seen_by s.clock) s.rows };
}

impl<'a> Shown<'a> {
    /// The entries that the document's rows show at the clock. Where the rows are those of a valid set and the clock is that
    /// of the ancestors of some heads, they are what the operations of these ancestors leave, in document order, with their
    /// totals.
    pub fn over(doc: DocRef<'a>, clock: &'a Clock) -> Self
        ensures walk { result ≡ walk (covers clock.now) doc.entry.rows }
        ensures replay { (C : List Member) (heads : List Hash) → Valid C → doc.entry.rows ≡ document.rows (all_operations (changes C)) → IsClockOf (ancestors C heads) clock.now → result ≡ replay (all_operations (changes (ancestors C heads))) }
    {
        Shown {
            rows: Scan::over(doc.rows()),
            clock: Asked::of(clock),
            succs: SuccCursor::none(),
            is_in_text: false,
        }
    }

    /// The entries that the document's rows show where every id is covered. Where the rows are those of a valid set, they are
    /// what all of its operations leave, in document order, with their totals. No clock is asked, and no successors are
    /// read but those of counters.
    pub fn whole(doc: DocRef<'a>) -> Self
        ensures walk { result ≡ walk everything doc.entry.rows }
        ensures replay { (C : List Member) → Valid C → doc.entry.rows ≡ document.rows (all_operations (changes C)) → result ≡ replay (all_operations (changes C)) }
    {
        Shown {
            rows: Scan::over(doc.rows()),
            clock: Asked::everything(),
            succs: SuccCursor::none(),
            is_in_text: false,
        }
    }

    /// How many rows are left. No more entries are.
    pub fn most(&self) -> u64
        ensures { length self.now ≤ result }
    {
        self.rows.left()
    }

    /// Puts the next entry into one that is there, in place of what it had, and tells whether there is one. Else nothing is
    /// known of what is there. Nothing of an entry is moved, so that this is quicker than `next`.
    pub fn next_into(&mut self, entry: &mut EntryRef<'a>) -> bool
        ensures end { result ≡ false → (self.old ≡ []) × (self.new ≡ []) }
        ensures next { result ≡ true → self.old ≡ entry_of entry.new ∷ self.new }
    {
        while self.rows.left() > 0 {
            if self.rows.next_into(&mut self.clock, &mut self.succs, entry) {
                return true;
            }
        }
        false
    }

    /// The next entry, or None behind the last.
    pub fn next(&mut self) -> Option<EntryRef<'a>>
        ensures end { IfNone result ((self.old ≡ []) × (self.new ≡ [])) }
        ensures next { IfSome result (λ entry. self.old ≡ entry_of entry ∷ self.new) }
    {
        let mut entry = EntryRef::blank();
        if self.next_into(&mut entry) {
            Some(entry)
        } else {
            None
        }
    }

    /// Letters, which may be none, and an entry behind them: it is put into one that is there, in place of what it had. None
    /// where no entry is left; then nothing is known of what is there. Letters that are runs in every column are handed out
    /// many at once.
    pub fn next_run(&mut self, entry: &mut EntryRef<'a>) -> Option<&'a [u8]>
        ensures end { IfNone result ((self.old ≡ []) × (self.new ≡ [])) }
        ensures next { IfSome result (λ letters. (es : List Entry) × (self.old ≡ es ++ entry_of entry.new ∷ self.new) × IsRun es letters.now (entry_of entry.new)) }
    {
        if self.is_in_text {
            if let Some(letters) = self.rows.next_letters(&mut self.clock, entry) {
                return Some(letters);
            }
        }
        if !self.next_into(entry) {
            return None;
        }
        self.is_in_text = is_letter(entry);
        Some(&[])
    }
}

impl<'a> EntrySource<'a> for Shown<'a> {
    ghost entries = { λ shown. shown };

    fn next_into(&mut self, entry: &mut EntryRef<'a>) -> bool {
        self.next_into(entry)
    }

    fn next_run(&mut self, entry: &mut EntryRef<'a>) -> Option<&'a [u8]> {
        self.next_run(entry)
    }
}
