//! Whether what the operations of a change name is there.
ghost use Rattle.std.specs.Prelude.{◌≡◌, ◌+◌, ◌<◌, ◌≤◌, ℕ, length, option_map, IfSome, IfNone};
ghost use Rattle.am_types.specs.Operations.{slot};
ghost use Rattle.am_types.specs.Views.{id_of, object_of};
ghost use Rattle.am_types.specs.Limits.{counter_end};
ghost use Rattle.am_fits.specs.Shown.{slot_shown, fact_shown};
ghost use Rattle.am_fits.specs.Told.{told, own_fact, own, object_by, element_by, preds_by, good_by, gives_to, IsGoodAt, IsFirstBad};

use crate::ancestors::Ancestors;
use crate::seen::{Seen, SlotRef, gives_to, inserts, makes, show, show_slot, takes};
use am_types::{IdRef, KeyRef, ObjRef, ReadChange, ReadOp, same_actor};

/// The first operation of the change that names what is neither among the ancestors' operations nor among its own.
pub(crate) fn first_bad<'a, C: ReadChange>(
    ancestors: &mut Ancestors<'a>,
    change: &'a C,
) -> Option<u64>
    requires { (C.change change.now).start + length (C.change change.now).ops ≤ counter_end }
    ensures found { IfSome result (IsFirstBad ancestors.old.clock ancestors.old.facts (C.change change.now)) }
    ensures none { IfNone result ((k : ℕ) → k < length (C.change change.now).ops → IsGoodAt ancestors.old.clock ancestors.old.facts (C.change change.now) k) }
{
    let ops = change.ops();
    for k in 0..ops.len() {
        if !is_good(ancestors, change, k, &ops[k]) {
            return Some(k as u64);
        }
    }
    None
}

// Whether an operation at the place in the change names what is there.
fn is_good<'a, C: ReadChange>(
    ancestors: &mut Ancestors<'a>,
    change: &'a C,
    place: usize,
    op: &'a C::Op,
) -> bool
    requires { (C.change change.now).start + place < counter_end }
    ensures same { ancestors.new ≡ ancestors.old }
    ensures good { result ≡ good_by (told ancestors.old.clock ancestors.old.facts (C.change change.now) place) (own (C.change change.now) place (C.Op.op op.now)) }
{
    if !object_takes(ancestors, change, place, op) {
        return false;
    }
    if !element_is_known(ancestors, change, place, op) {
        return false;
    }
    preds_are_known(ancestors, change, place, op)
}

// Whether the object is there, and takes the key. Mostly it is the ancestors' operation that was found last.
fn object_takes<'a, C: ReadChange>(
    ancestors: &mut Ancestors<'a>,
    change: &'a C,
    place: usize,
    op: &'a C::Op,
) -> bool
    ensures same { ancestors.new ≡ ancestors.old }
    ensures takes { result ≡ object_by (told ancestors.old.clock ancestors.old.facts (C.change change.now) place) (C.Op.op op.now).obj (C.Op.op op.now).key }
{
    match op.obj() {
        ObjRef::Root => takes(0, op.key()),
        ObjRef::Made(id) => {
            if makes(ancestors.find_object(id), op.key()) {
                return true;
            }
            makes(own(change, id, place), op.key())
        }
    }
}

// Whether the element of the key, if it is one, was inserted into the object.
fn element_is_known<'a, C: ReadChange>(
    ancestors: &mut Ancestors<'a>,
    change: &'a C,
    place: usize,
    op: &'a C::Op,
) -> bool
    ensures same { ancestors.new ≡ ancestors.old }
    ensures known { result ≡ element_by (told ancestors.old.clock ancestors.old.facts (C.change change.now) place) (C.Op.op op.now).obj (C.Op.op op.now).key }
{
    match op.key() {
        KeyRef::Name(_) => true,
        KeyRef::Head => true,
        KeyRef::Elem(id) => {
            if inserts(own(change, id, place), op.obj()) {
                return true;
            }
            inserts(ancestors.find(id), op.obj())
        }
    }
}

// Whether each predecessor is there, and gives a value to the same slot.
fn preds_are_known<'a, C: ReadChange>(
    ancestors: &mut Ancestors<'a>,
    change: &'a C,
    place: usize,
    op: &'a C::Op,
) -> bool
    requires { (C.change change.now).start + place < counter_end }
    ensures same { ancestors.new ≡ ancestors.old }
    ensures known { result ≡ preds_by (told ancestors.old.clock ancestors.old.facts (C.change change.now) place) (C.Op.op op.now).obj (slot (own (C.change change.now) place (C.Op.op op.now))) (C.Op.op op.now).preds }
{
    let id = IdRef {
        counter: change.start() + place as u64,
        actor: change.actor().as_slice(),
    };
    let slot = show_slot(op, id);
    for i in 0..op.pred_count() {
        if !pred_is_known(ancestors, change, place, op.obj(), slot, op.pred(i)) {
            return false;
        }
    }
    true
}

// Whether an operation with the id is there, and gives a value to the slot of the object.
fn pred_is_known<'a, C: ReadChange>(
    ancestors: &mut Ancestors<'a>,
    change: &'a C,
    place: usize,
    object: ObjRef<'_>,
    slot: SlotRef<'_>,
    pred: IdRef<'a>,
) -> bool
    ensures same { ancestors.new ≡ ancestors.old }
    ensures known { result ≡ told ancestors.old.clock ancestors.old.facts (C.change change.now) place (id_of pred.entry) (gives_to (object_of object.entry) (slot_shown slot.entry)) }
{
    if gives_to(own(change, pred, place), object, slot) {
        return true;
    }
    gives_to(ancestors.find(pred), object, slot)
}

// The operation with the id, where it is one of the change before the place.
#[inline(always)]
fn own<'a, C: ReadChange>(change: &'a C, id: IdRef<'a>, place: usize) -> Option<Seen<'a>>
    ensures { option_map fact_shown result ≡ own_fact (C.change change.now) place (id_of id.entry) }
{
    let start = change.start();
    if id.counter < start || !same_actor(id.actor, change.actor().as_slice()) {
        return None;
    }
    let before = (id.counter - start) as usize;
    if before >= place {
        return None;
    }
    match change.ops().get(before) {
        Some(op) => Some(show(op, id)),
        None => None,
    }
}
