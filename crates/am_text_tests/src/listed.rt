//! A source of entries that lie side by side. It hands out letters by twos.
ghost use Rattle.std.specs.Prelude.{◌≡◌, ◌++◌, ◌∷◌, [], List, IfSome, IsTrue};
ghost use Rattle.am_types.specs.declared.Entry.{Entry as Plain};
ghost use Rattle.am_types.specs.Letters.{IsInserted, IsLetter, IsRun};

use am_types::{
    Entry, EntryRef, EntrySource, KeyRef, ObjId, actions, kinds, same_key, same_object,
};

// Entries, and the bytes of the letters that are handed out of them.
#[derive(Drop)]
pub struct Listed<'a> {
    pub entries: &'a [Entry],
    pub letters: &'a [u8],
}

// Two letters and the others, the entry behind them and the others.
#[derive(Drop)]
struct Found<'a> {
    letters: &'a [u8],
    left: &'a [u8],
    behind: &'a Entry,
    rest: &'a [Entry],
}

fn is_inserted(entry: &Entry) -> bool
    ensures { IsTrue result → IsInserted entry.now }
{
    same_key(entry.slot.lend(), KeyRef::Elem(entry.id.lend()))
}

fn sets(entry: &Entry, letter: u8) -> bool
    ensures { IsTrue result → entry.now.value ≡ record { kind = 6; raw = letter ∷ [] } }
{
    entry.value.kind == kinds::TEXT && entry.value.raw.as_slice() == [letter].as_slice()
}

fn is_letter(entry: &Entry, object: &ObjId, letter: u8) -> bool
    ensures { IsTrue result → IsLetter object.now entry.now letter }
{
    if !same_object(entry.obj.lend(), object.lend()) {
        return false;
    }
    if !is_inserted(entry) {
        return false;
    }
    if entry.action != actions::SET {
        return false;
    }
    if !sets(entry, letter) {
        return false;
    }
    letter < 128
}

// The two are letters, and another inserted entry comes behind them.
fn are_letters(first: &Entry, second: &Entry, behind: &Entry, letters: &[u8]) -> bool
    ensures { IsTrue result → IsRun (first.now ∷ second.now ∷ []) letters.now behind.now }
{
    let [a, b] = letters else {
        return false;
    };
    if !is_letter(first, &behind.obj, *a) {
        return false;
    }
    if !is_letter(second, &behind.obj, *b) {
        return false;
    }
    is_inserted(behind)
}

// The first entries, if they are two letters and another inserted one.
fn two_letters<'a>(entries: &'a [Entry], letters: &'a [u8]) -> Option<Found<'a>>
    ensures { IfSome result (λ f. (es : List Plain) × (entries.now ≡ es ++ f.behind.now ∷ f.rest.now) × IsRun es f.letters.now f.behind.now) }
{
    let (first, rest) = entries.split_first()?;
    let (second, rest) = rest.split_first()?;
    let (behind, rest) = rest.split_first()?;
    if letters.len() < 2 {
        return None;
    }
    let (letters, left) = letters.split_at(2);
    if !are_letters(first, second, behind, letters) {
        return None;
    }
    Some(Found {
        letters,
        left,
        behind,
        rest,
    })
}

impl<'a> EntrySource<'a> for Listed<'a> {
    ghost entries = { λ s. s.entries.now };

    fn next_into(&mut self, entry: &mut EntryRef<'a>) -> bool {
        match self.entries.split_first() {
            None => false,
            Some((first, rest)) => {
                *entry = first.lend();
                self.entries = rest;
                true
            }
        }
    }

    fn next_run(&mut self, entry: &mut EntryRef<'a>) -> Option<&'a [u8]> {
        if let Some(found) = two_letters(self.entries, self.letters) {
            *entry = found.behind.lend();
            self.entries = found.rest;
            self.letters = found.left;
            return Some(found.letters);
        }
        if self.next_into(entry) {
            Some(&[])
        } else {
            None
        }
    }
}
