//! A cursor over the values of two columns.
ghost use Rattle.std.specs.Prelude.{◌≡◌, ◌<◌, ◌≤◌, ◌+◌, ◌^◌, ◌++◌, ◌∷◌, [], List, Option, Some, length, map, take, drop, IfOk, IfSome, IfNone, OnOk, OnErr};
ghost use Rattle.std.specs.Option.{option_map};
ghost use Rattle.am_types.specs.declared.RawValue.{RawValue};
ghost use Rattle.am_types.specs.Views.{value_of};
ghost use Rattle.am_values.specs.declared.nulls.Nulls.TheVariants.{AreRefused};
ghost use Rattle.am_values.specs.Columns.{JoinsValues, AllGood, NoneNull, given, joined, spellings};
ghost use Rattle.am_values.specs.Letters.{letter, AreAscii};

use crate::cutting::{are_cut, cut, raw_behind};
use crate::fault::BadValue;
use crate::letters::letters_ahead;
use crate::nulls::Nulls;
use crate::taking::taken;
use am_runs::{RunWriter, UnsignedCursor, UnsignedItem};
use am_types::ValueRef;
use std::alloc::AllocError;
use std::marker::Model;

/// The values of two columns, one after another. A contract sees those that are left.
#[derive(Drop)]
pub struct ValueCursor<'a> {
    numbers: UnsignedCursor<'a>,
    raw: &'a [u8],
}

impl<'a> Model for ValueCursor<'a> {
    ghost use Rattle.std.specs.Prelude.{List, Option};
    ghost use Rattle.am_types.specs.declared.RawValue.{RawValue};

    ghost Value = { List (Option RawValue) };

    ghost use Rattle.am_values.specs.Cutting.{values_from, AreCut};

    ghost view = { λ cursor. values_from cursor.numbers cursor.raw.now };

    ghost invariant = { λ cursor. AreCut cursor.numbers cursor.raw.now };
}

impl<'a> ValueCursor<'a> {
    /// The values that the two columns spell: numbers that tell kinds and lengths, and raw bytes (Automerge Binary
    /// Document Format, "Value Metadata" and "Value"). BadValue where that isn't a list of good values and nulls, or a
    /// longer one than `most`.
    pub fn over(meta: &'a [u8], raw: &'a [u8], most: u64) -> Result<Self, BadValue>
        ensures ok { IfOk result (λ values. JoinsValues meta.now raw.now values × (length values ≤ most)) }
        ensures err { OnErr result ((values : List (Option RawValue)) → JoinsValues meta.now raw.now values → most < length values) }
    {
        ValueCursor::opened(meta, raw, most, Nulls::MayBe)
    }

    /// The same where no value may be null.
    pub fn given(meta: &'a [u8], raw: &'a [u8], most: u64) -> Result<Self, BadValue>
        ensures ok { IfOk result (λ values. JoinsValues meta.now raw.now values × NoneNull values × (length values ≤ most)) }
        ensures err { OnErr result ((values : List (Option RawValue)) → JoinsValues meta.now raw.now values → NoneNull values → most < length values) }
    {
        ValueCursor::opened(meta, raw, most, Nulls::AreRefused)
    }

    // The same, where nulls may be or are refused.
    fn opened(meta: &'a [u8], raw: &'a [u8], most: u64, nulls: Nulls) -> Result<Self, BadValue>
        ensures ok { IfOk result (λ values. JoinsValues meta.now raw.now values × (nulls ≡ AreRefused → NoneNull values) × (length values ≤ most)) }
        ensures err { OnErr result ((values : List (Option RawValue)) → JoinsValues meta.now raw.now values → (nulls ≡ AreRefused → NoneNull values) → most < length values) }
    {
        match UnsignedCursor::over(meta, most) {
            Err(_) => Err(BadValue),
            Ok(numbers) => {
                if are_cut(numbers.again(), raw, nulls) {
                    Ok(ValueCursor { numbers, raw })
                } else {
                    Err(BadValue)
                }
            }
        }
    }

    /// The cursor before the first of so many values, which the two columns are known to spell. Nothing is read.
    pub fn spelled(meta: &'a [u8], raw: &'a [u8], count: u64) -> Self
        requires { (values : List (Option RawValue)) × JoinsValues meta.now raw.now values × (length values ≡ count) }
        ensures spelled { JoinsValues meta.now raw.now result }
        ensures count { length result ≡ count }
    {
        let numbers = UnsignedCursor::spelled(meta, count);
        ValueCursor { numbers, raw }
    }

    /// How many values are left.
    pub fn left(&self) -> u64
        ensures { result ≡ length self.now }
    {
        self.numbers.left()
    }

    /// The same cursor again.
    pub fn again(&self) -> Self
        ensures { result ≡ self.now }
    {
        ValueCursor {
            numbers: self.numbers.again(),
            raw: self.raw,
        }
    }

    /// Leaves out the next values, or all where fewer are left.
    pub fn skip(&mut self, n: u64)
        ensures { self.new ≡ drop n self.old }
    {
        self.raw = raw_behind(&mut self.numbers, self.raw, n);
    }

    /// The next values, at most so many, as far as each is known to be a letter, which is a text of one ASCII byte: their
    /// bytes, which lie together. There may be fewer than there are letters, also none.
    pub fn next_letters(&mut self, most: u64) -> &'a [u8]
        ensures few { length result.now ≤ most }
        ensures ascii { AreAscii result.now }
        ensures next { self.old ≡ map (λ b. Some (letter b)) result.now ++ self.new }
    {
        let count = letters_ahead(&self.numbers, most);
        let (letters, rest) = cut(count, self.raw);
        self.numbers.skip(count);
        self.raw = rest;
        letters
    }

    // Appends the numbers of the next n values, by runs, and gives their raw bytes in one piece.
    pub(crate) fn give(
        &mut self,
        n: u64,
        numbers: &mut RunWriter<UnsignedItem>,
        item: &mut Vec<u8>,
    ) -> Result<&'a [u8], AllocError>
        requires enough { n ≤ length self.old }
        requires room { IfSome numbers.old (λ list. length list + n ≤ 2 ^ 32) }
        ensures numbers { OnOk result (IfSome numbers.old (λ list. numbers.new ≡ Some (list ++ spellings (given (take n self.old))))) }
        ensures raw { IfOk result (λ raw. raw.now ≡ joined (given (take n self.old))) }
        ensures good { AllGood (given (take n self.old)) }
        ensures behind { OnOk result (self.new ≡ drop n self.old) }
    {
        let raw = self.raw;
        let mut behind = self.numbers.again();
        let rest = taken(&mut behind, raw, n, numbers, item)?;
        self.numbers = behind;
        self.raw = rest;
        Ok(cut((raw.len() - rest.len()) as u64, raw).0)
    }

    /// The next value, or null as the inner None. At the end it stays there.
    pub fn next(&mut self) -> Option<Option<ValueRef<'a>>>
        ensures end { IfNone result ((self.old ≡ []) × (self.new ≡ [])) }
        ensures next { IfSome result (λ value. self.old ≡ option_map value_of value ∷ self.new) }
    {
        match self.numbers.next() {
            None => None,
            Some(None) => Some(None),
            Some(Some(number)) => {
                let (raw, rest) = cut(number / 16, self.raw);
                self.raw = rest;
                Some(Some(ValueRef {
                    kind: (number % 16) as u8,
                    raw,
                }))
            }
        }
    }
}
