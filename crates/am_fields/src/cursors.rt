//! The cursors over numbers, texts, flags and deltas, as columns ask for them.
use crate::item_cursor::{Opened, Runs, Spelled};
use am_delta::DeltaCursor;
use am_flags::FlagCursor;
use am_runs::{TextCursor, UnsignedCursor};
use am_types::Text;

impl<'a> Spelled<Option<u64>> for UnsignedCursor<'a> {
    ghost use Rattle.std.specs.Prelude.{◌≡◌, [], None, refl};
    ghost use Rattle.am_runs.specs.Typed.{JoinsUnsigned};
    ghost use Rattle.am_fields.specs.ColumnLaws.{same_numbers};

    type Item = Option<u64>;

    ghost items = { λ c. c };

    ghost value = { λ item. item };

    ghost joins = { JoinsUnsigned };

    ghost blank = { None };

    ghost one = { same_numbers };

    ghost nothing = { ([], tt, refl, refl) };

    #[inline(always)]
    fn blank() -> Option<u64>
        ensures { result ≡ None }
    {
        None
    }

    #[inline(always)]
    fn next(&mut self) -> Option<Option<u64>> {
        self.next()
    }

    #[inline(always)]
    fn skip(&mut self, n: u64) {
        self.skip(n);
    }

    #[inline(always)]
    fn left(&self) -> u64 {
        self.left()
    }

    #[inline(always)]
    fn again(&self) -> Self {
        self.again()
    }
}

impl<'a> Spelled<Option<Text>> for TextCursor<'a> {
    ghost use Rattle.std.specs.Prelude.{◌≡◌, [], None, option_map, refl};
    ghost use Rattle.am_runs.specs.Typed.{JoinsTexts};
    ghost use Rattle.am_fields.specs.ColumnLaws.{same_texts};

    type Item = Option<&'a str>;

    ghost items = { λ c. c };

    ghost value = { λ item. option_map (λ s. s.now) item };

    ghost joins = { JoinsTexts };

    ghost blank = { None };

    ghost one = { same_texts };

    ghost nothing = { ([], tt, refl, refl) };

    #[inline(always)]
    fn blank() -> Option<&'a str>
        ensures { option_map (λ s. s.now) result ≡ None }
    {
        None
    }

    #[inline(always)]
    fn next(&mut self) -> Option<Option<&'a str>> {
        self.next()
    }

    #[inline(always)]
    fn skip(&mut self, n: u64) {
        self.skip(n);
    }

    #[inline(always)]
    fn left(&self) -> u64 {
        self.left()
    }

    #[inline(always)]
    fn again(&self) -> Self {
        self.again()
    }
}

impl<'a> Spelled<bool> for FlagCursor<'a> {
    ghost use Rattle.std.specs.Prelude.{◌≡◌, [], false, refl};
    ghost use Rattle.am_flags.specs.Flags.{JoinsFlags};
    ghost use Rattle.am_fields.specs.ColumnLaws.{same_flags};

    type Item = bool;

    ghost items = { λ c. c };

    ghost value = { λ flag. flag };

    ghost joins = { JoinsFlags };

    ghost blank = { false };

    ghost one = { same_flags };

    ghost nothing = { ([], tt, refl, refl) };

    #[inline(always)]
    fn blank() -> bool
        ensures { result ≡ false }
    {
        false
    }

    #[inline(always)]
    fn next(&mut self) -> Option<bool> {
        self.next()
    }

    #[inline(always)]
    fn skip(&mut self, n: u64) {
        self.skip(n);
    }

    #[inline(always)]
    fn left(&self) -> u64 {
        self.left()
    }

    #[inline(always)]
    fn again(&self) -> Self {
        self.again()
    }
}

impl<'a> Spelled<Option<i64>> for DeltaCursor<'a> {
    ghost use Rattle.std.specs.Prelude.{◌≡◌, [], None, refl};
    ghost use Rattle.am_delta.specs.Deltas.{JoinsDeltas};
    ghost use Rattle.am_fields.specs.ColumnLaws.{same_deltas};

    type Item = Option<i64>;

    ghost items = { λ c. c };

    ghost value = { λ item. item };

    ghost joins = { JoinsDeltas };

    ghost blank = { None };

    ghost one = { same_deltas };

    ghost nothing = { ([], ([], tt, refl, refl), refl) };

    #[inline(always)]
    fn blank() -> Option<i64>
        ensures { result ≡ None }
    {
        None
    }

    #[inline(always)]
    fn next(&mut self) -> Option<Option<i64>> {
        self.next()
    }

    #[inline(always)]
    fn skip(&mut self, n: u64) {
        self.skip(n);
    }

    #[inline(always)]
    fn left(&self) -> u64 {
        self.left()
    }

    #[inline(always)]
    fn again(&self) -> Self {
        self.again()
    }
}

impl<'a> Runs<Option<u64>> for UnsignedCursor<'a> {
    #[inline(always)]
    fn next_alike_within(&mut self, most: u64) -> Option<(Option<u64>, u64)> {
        self.next_alike_within(most)
    }
}

impl<'a> Runs<Option<Text>> for TextCursor<'a> {
    #[inline(always)]
    fn next_alike_within(&mut self, most: u64) -> Option<(Option<&'a str>, u64)> {
        self.next_alike_within(most)
    }
}

impl<'a> Runs<bool> for FlagCursor<'a> {
    #[inline(always)]
    fn next_alike_within(&mut self, most: u64) -> Option<(bool, u64)> {
        self.next_alike_within(most)
    }
}

impl<'a> Opened<'a, Option<u64>> for UnsignedCursor<'a> {
    fn opened(bytes: &'a [u8], most: u64) -> Option<Self> {
        UnsignedCursor::over(bytes, most).ok()
    }

    fn known(bytes: &'a [u8], count: u64) -> Self {
        UnsignedCursor::spelled(bytes, count)
    }
}

impl<'a> Opened<'a, Option<Text>> for TextCursor<'a> {
    fn opened(bytes: &'a [u8], most: u64) -> Option<Self> {
        TextCursor::over(bytes, most).ok()
    }

    fn known(bytes: &'a [u8], count: u64) -> Self {
        TextCursor::spelled(bytes, count)
    }
}

impl<'a> Opened<'a, bool> for FlagCursor<'a> {
    fn opened(bytes: &'a [u8], most: u64) -> Option<Self> {
        FlagCursor::over(bytes, most).ok()
    }

    fn known(bytes: &'a [u8], count: u64) -> Self {
        FlagCursor::spelled(bytes, count)
    }
}
