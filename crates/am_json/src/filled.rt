//! Entries of a source.
ghost use Rattle.std.specs.Prelude.{◌≡◌, ◌<◌, ◌++◌, [], length, IsAscii, true, false, IfOk, OnOk};
ghost use Rattle.am_types.specs.EntryOrder.{IsInOrder};
ghost use Rattle.am_json.specs.declared.form.Form.TheVariants as forms;
ghost use Rattle.am_json.specs.Stretches.{spread, ends_closed, AreKept};

use crate::blocks::Entries;
use crate::form::Form;
use crate::unseen::handed_out;
use am_types::{EntryRef, EntrySource};
use std::alloc::AllocError;
use std::snapshot::Snapshot;

// ASCII letters as a text.
fn text_of_letters<'a>(letters: &'a [u8]) -> &'a str
    requires { IsAscii letters.now }
    ensures { result.now ≡ letters.now }
{
    match std::str::from_utf8(letters) {
        Ok(text) => text,
        Err(_) => unreachable!(),
    }
}

// Takes the next entry, and tells whether there is one.
fn take_one<'a, S: EntrySource<'a>>(
    form: Form,
    entries: &mut Entries<'a>,
    source: &mut S,
    entry: &mut EntryRef<'a>,
) -> Result<bool, AllocError>
    requires kept { AreKept form entries.old }
    requires order { IsInOrder (spread entries.old ++ S.entries source.old) }
    ensures kept { OnOk result (AreKept form entries.new) }
    ensures all { OnOk result (spread entries.new ++ S.entries source.new ≡ spread entries.old ++ S.entries source.old) }
    ensures end { IfOk result (λ more. more ≡ false → S.entries source.new ≡ []) }
    ensures fewer { IfOk result (λ more. more ≡ true → length (S.entries source.new) < length (S.entries source.old)) }
{
    if !source.next_into(entry) {
        return Ok(false);
    }
    entries.push(*entry)?;
    Ok(true)
}

// Takes the next letters and the entry behind them, and tells whether there is one.
fn take_run<'a, S: EntrySource<'a>>(
    entries: &mut Entries<'a>,
    source: &mut S,
    entry: &mut EntryRef<'a>,
) -> Result<bool, AllocError>
    requires kept { AreKept forms.Winners entries.old }
    requires closed { ends_closed entries.old ≡ true }
    requires order { IsInOrder (spread entries.old ++ S.entries source.old) }
    ensures kept { OnOk result (AreKept forms.Winners entries.new) }
    ensures all { OnOk result (spread entries.new ++ S.entries source.new ≡ spread entries.old ++ S.entries source.old) }
    ensures end { IfOk result (λ more. more ≡ false → S.entries source.new ≡ []) }
    ensures fewer { IfOk result (λ more. more ≡ true → length (S.entries source.new) < length (S.entries source.old)) }
{
    let before = Snapshot::of(&*source);
    match source.next_run(entry) {
        None => Ok(false),
        Some(letters) => {
            let stands = handed_out(&before, &*source);
            entries.push_run(text_of_letters(letters), stands, *entry)?;
            Ok(true)
        }
    }
}

// The same, with letters where the form shows no more of them. Behind an entry whose slot may go on with a letter they aren't
// told apart, and the next entry is taken by itself.
fn take_next<'a, S: EntrySource<'a>>(
    form: Form,
    entries: &mut Entries<'a>,
    source: &mut S,
    entry: &mut EntryRef<'a>,
) -> Result<bool, AllocError>
    requires kept { AreKept form entries.old }
    requires order { IsInOrder (spread entries.old ++ S.entries source.old) }
    ensures kept { OnOk result (AreKept form entries.new) }
    ensures all { OnOk result (spread entries.new ++ S.entries source.new ≡ spread entries.old ++ S.entries source.old) }
    ensures end { IfOk result (λ more. more ≡ false → S.entries source.new ≡ []) }
    ensures fewer { IfOk result (λ more. more ≡ true → length (S.entries source.new) < length (S.entries source.old)) }
{
    match form {
        Form::Winners if entries.is_closed() => take_run(entries, source, entry),
        _ => take_one(form, entries, source, entry),
    }
}

// Takes all entries of a source.
pub fn fill<'a, S: EntrySource<'a>>(
    form: Form,
    entries: &mut Entries<'a>,
    source: &mut S,
) -> Result<(), AllocError>
    requires kept { AreKept form entries.old }
    requires order { IsInOrder (spread entries.old ++ S.entries source.old) }
    ensures kept { OnOk result (AreKept form entries.new) }
    ensures all { OnOk result (spread entries.new ≡ spread entries.old ++ S.entries source.old) }
    ensures read { OnOk result (S.entries source.new ≡ []) }
{
    let mut entry = EntryRef::blank();
    while take_next(form, entries, source, &mut entry)? {}
    Ok(())
}
