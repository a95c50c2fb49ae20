//! A cursor over the items of a column. It takes no memory.
ghost use Rattle.std.specs.Prelude.{◌≡◌, ◌<◌, ◌≤◌, ◌++◌, ◌∷◌, [], ℕ, List, Option, length, take, drop, Some, IfOk, IfSome, IfNone, OnErr, replicate};
ghost use Rattle.std.specs.Option.{option_copied};
ghost use Rattle.am_runs.specs.Items.{text_of};
ghost use Rattle.am_runs.specs.Runs.{JoinsRuns};
ghost use Rattle.am_runs.specs.Walking.{entries, HasEntries};
ghost use Rattle.am_runs.specs.Counters.{in_literal};
ghost use Rattle.am_runs.specs.Positions.{place_of};

use crate::fault::BadRun;
use crate::item::{Item, TextItem};
use crate::literal::text_behind;
use crate::place::{Kind, Position, run_start, stepped};
use crate::run::run_at;
use crate::skipping::place_behind;
use crate::taking::taken;
use std::marker::{Model, PhantomData};

/// The entries of a column, one after another.
#[derive(Drop)]
pub struct RunCursor<'a, K: Item> {
    at: Position<'a>,
    left: u64,
    of: PhantomData<K>,
}

impl<'a, K: Item> Model for RunCursor<'a, K> {
    ghost use Rattle.std.specs.Prelude.{ℕ, List, Option};

    ghost Value = { List (Option (List ℕ)) };

    ghost use Rattle.am_runs.specs.Positions.{place_of};
    ghost use Rattle.am_runs.specs.Walking.{entries, HasEntries};

    ghost view = { λ a. entries K.end_of a.left (place_of a.at) };

    ghost invariant = { λ a. HasEntries K.end_of a.left (place_of a.at) };
}

impl<'a, K: Item> RunCursor<'a, K> {
    /// A cursor before the first of the entries that the bytes join, nulls among them. `most` bounds how many there may be; `BadRun` where the bytes join no such list, or a longer one.
    pub fn over(bytes: &'a [u8], most: u64) -> Result<Self, BadRun>
        ensures ok { IfOk result (λ list. JoinsRuns K.end_of bytes.now list × (length list ≤ most)) }
        ensures err { OnErr result ((list : List (Option (List ℕ))) → JoinsRuns K.end_of bytes.now list → most < length list) }
    {
        let mut rest = bytes;
        let mut total = 0;
        while !rest.is_empty() {
            match run_at::<K>(rest, most - total) {
                None => return Err(BadRun),
                Some((count, behind)) => {
                    total += count;
                    rest = behind;
                }
            }
        }
        Ok(RunCursor {
            at: Position {
                kind: Kind::Nulls,
                count: 0,
                item: &bytes[..0],
                rest: bytes,
            },
            left: total,
            of: PhantomData,
        })
    }

    /// The cursor before the first of so many entries, which the bytes are known to join. Nothing is read.
    pub fn spelled(bytes: &'a [u8], count: u64) -> Self
        requires { (list : List (Option (List ℕ))) × JoinsRuns K.end_of bytes.now list × (length list ≡ count) }
        ensures spelled { JoinsRuns K.end_of bytes.now result }
        ensures count { length result ≡ count }
    {
        RunCursor {
            at: Position {
                kind: Kind::Nulls,
                count: 0,
                item: &bytes[..0],
                rest: bytes,
            },
            left: count,
            of: PhantomData,
        }
    }

    /// How many entries are left.
    pub fn left(&self) -> u64
        ensures { result ≡ length self.now }
    {
        self.left
    }

    /// The same cursor again.
    pub fn again(&self) -> Self
        ensures { result ≡ self.now }
    {
        RunCursor {
            at: self.at,
            left: self.left,
            of: PhantomData,
        }
    }

    /// Leaves out the next n entries, or all where fewer are left.
    pub fn skip(&mut self, n: u64)
        ensures { self.new ≡ drop n self.old }
    {
        let (at, left) = place_behind::<K>(self.at, self.left, n.min(self.left));
        self.at = at;
        self.left = left;
    }

    /// The next entry, and how often it comes next at least. It goes on by none.
    pub fn like(&self) -> Option<(Option<&'a [u8]>, u64)>
        ensures end { IfNone result (self.now ≡ []) }
        ensures like { IfSome result (λ r. (1 ≤ r.1) × (r.1 ≤ length self.now) × (take r.1 self.now ≡ replicate r.1 (option_copied r.0))) }
    {
        if self.left == 0 {
            return None;
        }
        match taken::<K>(self.at, self.left) {
            None => None,
            Some((entry, k, _)) => Some((entry, k)),
        }
    }

    // A cursor before so many items of a literal run, which begin the bytes.
    pub(crate) fn in_literal(literal: u64, rest: &'a [u8], left: u64) -> Self
        requires { HasEntries K.end_of left (in_literal literal rest.now) }
        ensures { result ≡ entries K.end_of left (in_literal literal rest.now) }
    {
        RunCursor {
            at: Position {
                kind: Kind::Literal,
                count: literal,
                item: &rest[..0],
                rest,
            },
            left,
            of: PhantomData,
        }
    }

    // The place, and how many entries are left from it.
    pub(crate) fn place(&self) -> (Position<'a>, u64)
        ensures holds { HasEntries K.end_of result.1 (place_of result.0) }
        ensures list { self.now ≡ entries K.end_of result.1 (place_of result.0) }
    {
        (self.at, self.left)
    }

    // Opens the next run where none is being read. No entry is taken.
    #[inline(always)]
    pub(crate) fn enter(&mut self)
        ensures { self.new ≡ self.old }
    {
        if self.at.count > 0 {
            return;
        }
        if self.left == 0 {
            return;
        }
        match run_start::<K>(self.at.rest) {
            None => {}
            Some(at) => {
                if at.count == 0 {
                    return;
                }
                self.at = at;
            }
        }
    }

    // The next entry with all those like it that its run still gives.
    #[inline(always)]
    pub(crate) fn next_alike(&mut self) -> Option<(Option<&'a [u8]>, u64)>
        ensures end { IfNone result ((self.old ≡ []) × (self.new ≡ [])) }
        ensures next { IfSome result (λ r. (1 ≤ r.1) × (self.old ≡ replicate r.1 (option_copied r.0) ++ self.new)) }
    {
        self.next_alike_within(u64::MAX)
    }

    /// The next entry with those like it that its run still gives, at most so many.
    #[inline(always)]
    pub fn next_alike_within(&mut self, most: u64) -> Option<(Option<&'a [u8]>, u64)>
        requires some { 0 < most }
        ensures end { IfNone result ((self.old ≡ []) × (self.new ≡ [])) }
        ensures next { IfSome result (λ r. (1 ≤ r.1) × (r.1 ≤ most) × (self.old ≡ replicate r.1 (option_copied r.0) ++ self.new)) }
    {
        if self.left == 0 {
            return None;
        }
        match taken::<K>(self.at, most.min(self.left)) {
            None => None,
            Some((entry, k, at)) => {
                self.at = at;
                self.left -= k;
                Some((entry, k))
            }
        }
    }

    /// The next entry, which may be null; nothing at the end.
    #[inline(always)]
    pub fn next(&mut self) -> Option<Option<&'a [u8]>>
        ensures end { IfNone result ((self.old ≡ []) × (self.new ≡ [])) }
        ensures next { IfSome result (λ entry. self.old ≡ option_copied entry ∷ self.new) }
    {
        if self.left == 0 {
            return None;
        }
        match stepped::<K>(self.at) {
            None => None,
            Some((entry, at)) => {
                self.at = at;
                self.left -= 1;
                Some(entry)
            }
        }
    }
}

impl<'a> RunCursor<'a, TextItem> {
    // The next text, while a literal run is being read.
    #[inline(always)]
    pub(crate) fn literal_text(&mut self) -> Option<&'a str>
        ensures found { IfSome result (λ text. (item : List ℕ) × (text.now ≡ text_of item) × (self.old ≡ Some item ∷ self.new)) }
        ensures none { IfNone result (self.new ≡ self.old) }
    {
        if self.at.count == 0 {
            return None;
        }
        if self.left == 0 {
            return None;
        }
        match self.at.kind {
            Kind::Literal => match text_behind(&mut self.at) {
                None => None,
                Some((text, _)) => {
                    self.left -= 1;
                    Some(text)
                }
            },
            _ => None,
        }
    }
}

/// Bytes join the runs of one list at most.
pub fn one_list<K: Item>()
    ensures { (bytes : List ℕ) (xs ys : List (Option (List ℕ))) → JoinsRuns K.end_of bytes xs → JoinsRuns K.end_of bytes ys → xs ≡ ys }
{}
