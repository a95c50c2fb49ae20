//! The text of all entries.
ghost use Rattle.std.specs.Prelude.{◌≡◌, ◌<◌, ◌≤◌, Err, IfOk};
ghost use Rattle.serde_json.specs.Data.{depth};
ghost use Rattle.serde_json.specs.Written.{compact_text};
ghost use Rattle.am_json.specs.Shown.{json_data};
ghost use Rattle.am_json.specs.Stretches.{spread, AreKept};

use crate::blocks::Entries;
use crate::fault::JsonFault;
use crate::form::Form;
use crate::nests::{DEEPEST, LEVELS, nests};
use crate::shown::Shown;
use am_types::actions::MAKE_MAP;
use am_types::{Bytes, ObjRef};
use std::alloc::Global;

// Why there is no text: it would nest too deep, or else there was no memory.
fn fault_of(form: Form, entries: &Entries<'_>) -> JsonFault
    requires { AreKept form entries.now }
    ensures { result ≡ JsonFault.TooDeep → 127 < depth (json_data form (spread entries.now)) }
{
    if nests(form, entries, ObjRef::Root, MAKE_MAP, LEVELS, DEEPEST) {
        JsonFault::NoMemory
    } else {
        JsonFault::TooDeep
    }
}

// The text of entries in order. It is written until it nests too deep.
pub fn written(alloc: Global, form: Form, entries: &Entries<'_>) -> Result<Bytes, JsonFault>
    requires { AreKept form entries.now }
    ensures text { IfOk result (λ text. text ≡ compact_text (json_data form (spread entries.now))) }
    ensures fits { IfOk result (λ _. depth (json_data form (spread entries.now)) ≤ 127) }
    ensures deep { result ≡ Err JsonFault.TooDeep → 127 < depth (json_data form (spread entries.now)) }
{
    match serde_json::to_vec(alloc, &Shown::new(alloc, form, entries)) {
        Ok(text) => Ok(Bytes::from(text)),
        Err(_) => Err(fault_of(form, entries)),
    }
}
