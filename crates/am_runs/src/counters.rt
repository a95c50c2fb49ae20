//! What a cursor of numbers holds, kept flat so that handing out a number changes as little as may be.
ghost use Rattle.std.specs.Prelude.{◌≡◌, ◌++◌, replicate};
ghost use Rattle.std.specs.Option.{option_copied};
ghost use Rattle.am_runs.specs.Typed.{AllItems};
ghost use Rattle.am_runs.specs.Counters.{IsCounted, entries_from};

use crate::cursor::RunCursor;
use crate::item::Item;
use crate::place::Kind;

/// So many copies of an entry come first, then so many items of a literal run, which begin the bytes, and then the other entries that the bytes have.
#[derive(Clone, Copy)]
pub struct Counters<'a> {
    pub copies: u64,
    pub literal: u64,
    pub rest: &'a [u8],
    pub left: u64,
}

/// The entries behind the copies.
pub fn runs_from<'a, K: Item>(at: &Counters<'a>) -> RunCursor<'a, K>
    requires { IsCounted K.end_of at.now.copies at.now.literal at.now.left at.now.rest.now }
    ensures { result ≡ entries_from K.end_of at.now.literal at.now.left at.now.rest.now }
{
    RunCursor::in_literal(at.literal, at.rest, at.literal + at.left)
}

/// The entries of a cursor in counters, and the entry of which there are copies.
pub fn counters_of<'a, K: Item>(runs: &RunCursor<'a, K>) -> (Counters<'a>, Option<&'a [u8]>)
    requires { AllItems K.end_of runs.now }
    ensures held { IsCounted K.end_of result.0.copies result.0.literal result.0.left result.0.rest.now }
    ensures list { runs.now ≡ replicate result.0.copies (option_copied result.1) ++ entries_from K.end_of result.0.literal result.0.left result.0.rest.now }
{
    let (at, all) = runs.place();
    let left = all - at.count;
    let (copies, literal, entry) = match at.kind {
        Kind::Repeat => (at.count, 0, Some(at.item)),
        Kind::Literal => (0, at.count, None),
        Kind::Nulls => (at.count, 0, None),
    };
    let at = Counters {
        copies,
        literal,
        rest: at.rest,
        left,
    };
    (at, entry)
}
