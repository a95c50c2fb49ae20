//! A place within a block of equal flags.
ghost use Rattle.std.specs.Prelude.{◌≡◌, [], drop};
ghost use Rattle.am_flags.specs.Flags.{SpellCounts, flags_at};

use crate::count::number_at;

/// Within a block: its flag, how many of it are to come, and the bytes behind.
#[derive(Clone, Copy)]
pub struct Position<'a> {
    pub flag: bool,
    pub count: u64,
    pub rest: &'a [u8],
}

/// The next block where none is left of this one.
pub fn block_at<'a>(at: Position<'a>) -> Position<'a>
    requires { SpellCounts at.rest.now }
    ensures counts { SpellCounts result.rest.now }
    ensures same { flags_at result.flag result.count result.rest.now ≡ flags_at at.entry.flag at.entry.count at.entry.rest.now }
    ensures some { result.count ≡ 0 → flags_at at.entry.flag at.entry.count at.entry.rest.now ≡ [] }
{
    if at.count > 0 {
        return at;
    }
    match number_at(at.rest) {
        None => at,
        Some((count, rest)) => Position {
            flag: !at.flag,
            count,
            rest,
        },
    }
}

pub fn place_behind<'a>(at: Position<'a>, n: u64) -> Position<'a>
    requires { SpellCounts at.rest.now }
    ensures counts { SpellCounts result.rest.now }
    ensures drops { flags_at result.flag result.count result.rest.now ≡ drop n (flags_at at.entry.flag at.entry.count at.entry.rest.now) }
{
    let mut at = at;
    let mut n = n;
    while n > 0 {
        let block = block_at(at);
        if block.count == 0 {
            return block;
        }
        let k = block.count.min(n);
        at = Position {
            flag: block.flag,
            count: block.count - k,
            rest: block.rest,
        };
        n -= k;
    }
    at
}
