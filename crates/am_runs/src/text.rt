//! A cursor over the texts of a column.
ghost use Rattle.std.specs.Prelude.{◌≡◌, ◌<◌, ◌≤◌, ◌++◌, ◌∷◌, [], ℕ, List, Option, length, drop, IfOk, IfSome, IfNone, OnErr, replicate};
ghost use Rattle.std.specs.Option.{option_copied, option_map};
ghost use Rattle.am_runs.specs.Items.{IsItem, text_end, text_of};
ghost use Rattle.am_runs.specs.Typed.{JoinsTexts};

use crate::cursor::RunCursor;
use crate::fault::BadRun;
use crate::item::TextItem;
use crate::value::text_in;
use std::marker::Model;

// The text of an item, and null of null.
fn text_or_null<'a>(entry: Option<&'a [u8]>) -> Option<&'a str>
    requires { IfSome (option_copied entry) (IsItem text_end) }
    ensures { option_map (λ s. s.now) result ≡ option_map text_of (option_copied entry.entry) }
{
    match entry {
        None => None,
        Some(item) => Some(text_in(item)),
    }
}

/// The texts of a column, one after another.
#[derive(Drop)]
pub struct TextCursor<'a> {
    runs: RunCursor<'a, TextItem>,
    // So many of this text come before those of the runs.
    more: u64,
    value: Option<&'a str>,
}

impl<'a> Model for TextCursor<'a> {
    ghost use Rattle.std.specs.Prelude.{ℕ, ◌+◌, ◌^◌, ◌<◌, ◌++◌, List, Option, length, replicate};
    ghost use Rattle.std.specs.Option.{option_map};

    ghost Value = { List (Option (List ℕ)) };

    ghost use Rattle.am_runs.specs.Items.{text_end};
    ghost use Rattle.am_runs.specs.Typed.{AllItems, texts};

    ghost view = { λ a. replicate a.more (option_map (λ s. s.now) a.value) ++ texts a.runs };

    ghost invariant = { λ a. AllItems text_end a.runs × (a.more + length a.runs < 2 ^ 64) };
}

impl<'a> TextCursor<'a> {
    /// A cursor before the first of the texts that the bytes join, nulls among them. `most` bounds how many there may be; `BadRun` where the bytes join no such list, or a longer one.
    pub fn over(bytes: &'a [u8], most: u64) -> Result<Self, BadRun>
        ensures ok { IfOk result (λ values. JoinsTexts bytes.now values × (length values ≤ most)) }
        ensures err { OnErr result ((values : List (Option (List ℕ))) → JoinsTexts bytes.now values → most < length values) }
    {
        match RunCursor::over(bytes, most) {
            Err(fault) => Err(fault),
            Ok(runs) => Ok(TextCursor {
                runs,
                more: 0,
                value: None,
            }),
        }
    }

    /// The cursor before the first of so many texts, which the bytes are known to join. Nothing is read.
    pub fn spelled(bytes: &'a [u8], count: u64) -> Self
        requires { (values : List (Option (List ℕ))) × JoinsTexts bytes.now values × (length values ≡ count) }
        ensures spelled { JoinsTexts bytes.now result }
        ensures count { length result ≡ count }
    {
        let runs = RunCursor::spelled(bytes, count);
        TextCursor {
            runs,
            more: 0,
            value: None,
        }
    }

    /// How many texts are left.
    pub fn left(&self) -> u64
        ensures { result ≡ length self.now }
    {
        self.more + self.runs.left()
    }

    /// The same cursor again.
    pub fn again(&self) -> Self
        ensures { result ≡ self.now }
    {
        TextCursor {
            runs: self.runs.again(),
            more: self.more,
            value: self.value,
        }
    }

    /// Leaves out the next n texts, or all where fewer are left. A run costs one step, however many it has; each item of a literal run is read.
    pub fn skip(&mut self, n: u64)
        ensures { self.new ≡ drop n self.old }
    {
        if n <= self.more {
            self.more -= n;
            return;
        }
        self.runs.skip(n - self.more);
        self.more = 0;
    }

    /// The next text, and how many like it come at once, at most so many. A run costs two steps at most.
    pub fn next_alike_within(&mut self, most: u64) -> Option<(Option<&'a str>, u64)>
        requires some { 0 < most }
        ensures end { IfNone result ((self.old ≡ []) × (self.new ≡ [])) }
        ensures next { IfSome result (λ r. (1 ≤ r.1) × (r.1 ≤ most) × (self.old ≡ replicate r.1 (option_map (λ s. s.now) r.0) ++ self.new)) }
    {
        if self.more > 0 {
            let k = self.more.min(most);
            self.more -= k;
            return Some((self.value, k));
        }
        match self.next() {
            None => None,
            Some(value) => Some((value, 1)),
        }
    }

    /// The next text, which may be null; nothing at the end.
    pub fn next(&mut self) -> Option<Option<&'a str>>
        ensures end { IfNone result ((self.old ≡ []) × (self.new ≡ [])) }
        ensures next { IfSome result (λ value. self.old ≡ option_map (λ s. s.now) value ∷ self.new) }
    {
        if self.more > 0 {
            self.more -= 1;
            return Some(self.value);
        }
        self.runs.enter();
        match self.runs.literal_text() {
            Some(text) => return Some(Some(text)),
            None => {}
        }
        match self.runs.next_alike() {
            None => None,
            Some((entry, k)) => {
                self.value = text_or_null(entry);
                self.more = k - 1;
                Some(self.value)
            }
        }
    }
}
