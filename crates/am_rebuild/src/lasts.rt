//! How far each actor's changes go. Actors are looked up in an ordered map, so that nobody who picks them makes look-ups slow.
ghost use Rattle.std.specs.Prelude.{◌≡◌, List, ℕ, OnOk, if◌then◌else◌, max as larger, true};
ghost use Rattle.am_types.specs.Same.{same_bytes};
ghost use Rattle.am_rebuild.specs.Gathered.{last_in, has_last};

use std::alloc::{AllocError, Global};
use std::collections::BTreeMap;

/// The greatest last counter of the actor's changes, or 0.
pub(crate) fn last_in(lasts: &BTreeMap<Vec<u8>, u64>, actor: &[u8]) -> u64
    ensures { result ≡ last_in lasts.now.entries actor.now }
{
    match lasts.get(actor) {
        Some(last) => *last,
        None => 0,
    }
}

/// Makes room for the last counter of the actor, which is 0 where there was none.
pub(crate) fn make_room(
    alloc: Global,
    lasts: &mut BTreeMap<Vec<u8>, u64>,
    actor: &[u8],
) -> Result<(), AllocError>
    ensures same { (a : List ℕ) → last_in lasts.new.entries a ≡ last_in lasts.old.entries a }
    ensures room { OnOk result (has_last lasts.new.entries actor.now ≡ true) }
{
    if lasts.contains_key(actor) {
        return Ok(());
    }
    let name = Vec::from_slice(alloc, actor)?;
    lasts.insert(name, 0)?;
    Ok(())
}

/// Notes a last counter of the actor, for which there is room. It takes no memory.
pub(crate) fn raise(lasts: &mut BTreeMap<Vec<u8>, u64>, actor: &[u8], last: u64)
    requires { has_last lasts.old.entries actor.now ≡ true }
    ensures { (a : List ℕ) → last_in lasts.new.entries a ≡ (if same_bytes actor.now a then larger (last_in lasts.old.entries a) last else last_in lasts.old.entries a) }
{
    if let Some(known) = lasts.get_mut(actor) {
        *known = (*known).max(last);
    }
}
