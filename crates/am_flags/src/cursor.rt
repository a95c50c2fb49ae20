//! A cursor over the flags of a column. It takes no memory.
ghost use Rattle.std.specs.Prelude.{◌≡◌, ◌<◌, ◌≤◌, ◌++◌, ◌∷◌, [], ℕ, List, Bool, length, drop, replicate, IfOk, IfSome, IfNone, OnErr};
ghost use Rattle.am_flags.specs.Flags.{JoinsFlags};

use crate::count::{number_at, total_of};
use crate::fault::BadFlags;
use crate::place::{Position, block_at, place_behind};
use std::marker::Model;

/// The flags of a column, one after another.
#[derive(Drop)]
pub struct FlagCursor<'a> {
    at: Position<'a>,
    left: u64,
}

impl<'a> Model for FlagCursor<'a> {
    ghost use Rattle.std.specs.Prelude.{◌≡◌, List, Bool, length};

    ghost Value = { List Bool };

    ghost use Rattle.am_flags.specs.Flags.{flags_at, SpellCounts};

    ghost view = { λ a. flags_at a.at.flag a.at.count a.at.rest.now };

    ghost invariant = { λ a. SpellCounts a.at.rest.now × (a.left ≡ length (flags_at a.at.flag a.at.count a.at.rest.now)) };
}

impl<'a> FlagCursor<'a> {
    /// A cursor before the first of the flags that the bytes join. `most` bounds how many there may be; `BadFlags` where
    /// the bytes join no such list, or a longer one.
    pub fn over(bytes: &'a [u8], most: u64) -> Result<Self, BadFlags>
        ensures ok { IfOk result (λ flags. JoinsFlags bytes.now flags × (length flags ≤ most)) }
        ensures err { OnErr result ((flags : List Bool) → JoinsFlags bytes.now flags → most < length flags) }
    {
        if bytes.is_empty() {
            return Ok(FlagCursor {
                at: Position {
                    flag: false,
                    count: 0,
                    rest: bytes,
                },
                left: 0,
            });
        }
        match number_at(bytes) {
            None => Err(BadFlags),
            Some((count, rest)) => {
                if count > most {
                    return Err(BadFlags);
                }
                match total_of(rest, most - count) {
                    None => Err(BadFlags),
                    Some(total) => Ok(FlagCursor {
                        at: Position {
                            flag: false,
                            count,
                            rest,
                        },
                        left: count + total,
                    }),
                }
            }
        }
    }

    /// The cursor before the first of so many flags, which the bytes are known to join. Only the first length is read.
    pub fn spelled(bytes: &'a [u8], count: u64) -> Self
        requires { (flags : List Bool) × JoinsFlags bytes.now flags × (length flags ≡ count) }
        ensures spelled { JoinsFlags bytes.now result }
        ensures count { length result ≡ count }
    {
        let Some((first, rest)) = number_at(bytes) else {
            return FlagCursor {
                at: Position {
                    flag: false,
                    count: 0,
                    rest: bytes,
                },
                left: count,
            };
        };
        FlagCursor {
            at: Position {
                flag: false,
                count: first,
                rest,
            },
            left: count,
        }
    }

    /// How many flags are left.
    pub fn left(&self) -> u64
        ensures { result ≡ length self.now }
    {
        self.left
    }

    /// The same cursor again.
    pub fn again(&self) -> Self
        ensures { result ≡ self.now }
    {
        FlagCursor {
            at: self.at,
            left: self.left,
        }
    }

    /// Leaves out the next n flags, or all where fewer are left.
    pub fn skip(&mut self, n: u64)
        ensures { self.new ≡ drop n self.old }
    {
        let at = place_behind(self.at, n);
        self.at = at;
        self.left -= n.min(self.left);
    }

    /// The next flag, and how many like it come at once, at most so many: all that its block still has. It costs one step.
    pub fn next_alike_within(&mut self, most: u64) -> Option<(bool, u64)>
        requires some { 0 < most }
        ensures end { IfNone result ((self.old ≡ []) × (self.new ≡ [])) }
        ensures next { IfSome result (λ r. (1 ≤ r.1) × (r.1 ≤ most) × (self.old ≡ replicate r.1 r.0 ++ self.new)) }
    {
        let at = block_at(self.at);
        if at.count == 0 {
            return None;
        }
        let k = at.count.min(most);
        self.at = Position {
            flag: at.flag,
            count: at.count - k,
            rest: at.rest,
        };
        self.left -= k;
        Some((at.flag, k))
    }

    /// The next flag; nothing at the end.
    pub fn next(&mut self) -> Option<bool>
        ensures end { IfNone result ((self.old ≡ []) × (self.new ≡ [])) }
        ensures next { IfSome result (λ flag. self.old ≡ flag ∷ self.new) }
    {
        let at = block_at(self.at);
        if at.count == 0 {
            return None;
        }
        self.at = Position {
            flag: at.flag,
            count: at.count - 1,
            rest: at.rest,
        };
        self.left -= 1;
        Some(at.flag)
    }
}

/// Bytes join one list of flags at most.
pub fn one_list()
    ensures { (bytes : List ℕ) (xs ys : List Bool) → JoinsFlags bytes xs → JoinsFlags bytes ys → xs ≡ ys }
{}
