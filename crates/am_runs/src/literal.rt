//! The next item of a literal run, read once with what it spells.
ghost use Rattle.std.specs.Prelude.{◌≡◌, ◌<◌, Some, IfSome, IsSome};
ghost use Rattle.std.specs.Option.{option_map};
ghost use Rattle.am_runs.specs.Items.{text_end, text_of};
ghost use Rattle.am_runs.specs.Walking.{step};
ghost use Rattle.am_runs.specs.Positions.{place_of};

use crate::place::{Kind, Position};
use crate::value::known_text_at;

/// Goes behind the next item, which is known to be a text: the text that it spells, and the item.
pub fn text_behind<'a>(at: &mut Position<'a>) -> Option<(&'a str, &'a [u8])>
    requires within { 0 < at.old.count }
    requires literal { at.old.kind ≡ Kind.Literal }
    requires known { IsSome (text_end at.old.rest.now) }
    ensures step { option_map (λ r. (Some r.1.now, place_of at.new)) result
        ≡ step text_end (place_of at.old) }
    ensures value { IfSome result (λ r. r.0.now ≡ text_of r.1.now) }
{
    let rest = at.rest;
    match known_text_at(rest) {
        None => None,
        Some((text, len)) => {
            at.count -= 1;
            at.item = &rest[..0];
            at.rest = &rest[len..];
            Some((text, &rest[..len]))
        }
    }
}
