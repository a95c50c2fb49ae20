//! Entries that are handed out one after another.
ghost use Rattle.std.specs.Prelude.{◌≡◌, ◌++◌, ◌∷◌, [], List, IfNone, IfSome, true, false};
ghost use Rattle.am_types.specs.Letters.{IsRun};
ghost use Rattle.am_types.specs.Records.{Entry};
ghost use Rattle.am_types.specs.Views.{entry_of};

use crate::refs::EntryRef;

/// Entries that are handed out one after another, or those that are letters of a text many at once, as bytes, for whoever
/// asks for neither their ids nor their slots.
pub trait EntrySource<'a> {
    /// The entries that are left.
    ghost entries: { Self → List Entry };

    /// Puts the next entry into one that is there, in place of what it had, and tells whether there is one. Else nothing is
    /// known of what is there.
    fn next_into(&mut self, entry: &mut EntryRef<'a>) -> bool
        ensures end { result ≡ false → (entries self.old ≡ []) × (entries self.new ≡ []) }
        ensures next { result ≡ true → entries self.old ≡ entry_of entry.new ∷ entries self.new };

    /// Letters, which may be none, and an entry behind them: it is put into one that is there, in place of what it had. None
    /// where no entry is left; then nothing is known of what is there.
    fn next_run(&mut self, entry: &mut EntryRef<'a>) -> Option<&'a [u8]>
        ensures end { IfNone result ((entries self.old ≡ []) × (entries self.new ≡ [])) }
        ensures next { IfSome result (λ letters. (es : List Entry) × (entries self.old ≡ es ++ entry_of entry.new ∷ entries self.new) × IsRun es letters.now (entry_of entry.new)) };
}
