//! Objects of rows, of which those alike are read once.
ghost use Rattle.std.specs.Prelude.{◌≡◌, ◌↔◌, ◌<◌, ◌++◌, ◌∷◌, List, length, replicate, IfOk, OnErr, IsTrue};
ghost use Rattle.am_types.specs.declared.ObjId.{ObjId};
ghost use Rattle.am_types.specs.Views.{object_of};
ghost use Rattle.am_fields.specs.Layout.{object_counter};
ghost use Rattle.am_fields.specs.Spelling.{SpellsObjects};

use crate::actors::Actors;
use crate::fault::BadFields;
use crate::objects::ObjectColumns;
use am_types::ObjRef;
use std::marker::Model;

/// The objects in which rows stand, one a row. Those alike that stand together are read once: then a number tells how many
/// like the first are to come.
#[derive(Drop)]
pub struct CountedObjects<'a> {
    // what comes next, so many times, before the others; where it comes no more, what came last, and at first the root
    object: ObjRef<'a>,
    alike: u64,
    behind: ObjectColumns<'a>,
}

impl<'a> Model for CountedObjects<'a> {
    ghost use Rattle.std.specs.Prelude.{List, ◌++◌, replicate};
    ghost use Rattle.am_types.specs.declared.ObjId.{ObjId};
    ghost use Rattle.am_types.specs.Views.{object_of};

    ghost Value = { List ObjId };

    ghost view = { λ c. replicate c.alike (object_of c.object) ++ c.behind };
}

// Whether the ids of both objects have one counter, or both are the root.
fn have_same_counter(a: ObjRef<'_>, b: ObjRef<'_>) -> bool
    ensures { IsTrue result ↔ (object_counter (object_of a.entry) ≡ object_counter (object_of b.entry)) }
{
    match (a, b) {
        (ObjRef::Root, ObjRef::Root) => true,
        (ObjRef::Made(a), ObjRef::Made(b)) => a.counter == b.counter,
        _ => false,
    }
}

// The next object, and how many of it, itself counted, are passed.
fn next_alike<'a>(objects: &mut ObjectColumns<'a>) -> (ObjRef<'a>, u64)
    requires { 0 < length objects.old }
    ensures { objects.old ≡ replicate result.1 (object_of result.0) ++ objects.new }
{
    let (object, count) = objects.like();
    objects.skip(count);
    (object, count)
}

impl<'a> CountedObjects<'a> {
    /// The two columns that have this many objects, as `ObjectColumns::over` gives them.
    pub fn over(
        actor: &'a [u8],
        counter: &'a [u8],
        actors: &Actors<'a>,
        count: u64,
    ) -> Result<Self, BadFields>
        ensures spelled { IfOk result (SpellsObjects actors.now actor.now counter.now) }
        ensures count { IfOk result (λ c. length c ≡ count) }
        ensures err { OnErr result ((objects : List ObjId) → SpellsObjects actors.now actor.now counter.now objects → length objects ≡ count → ⊥) }
    {
        match ObjectColumns::over(actor, counter, actors, count) {
            Ok(behind) => Ok(CountedObjects {
                object: ObjRef::Root,
                alike: 0,
                behind,
            }),
            Err(fault) => Err(fault),
        }
    }

    /// The next object. Where it may be the one before it again, those that follow are counted.
    pub fn next(&mut self) -> ObjRef<'a>
        requires { 0 < length self.old }
        ensures { self.old ≡ object_of result ∷ self.new }
    {
        if self.alike > 0 {
            self.alike -= 1;
            return self.object;
        }
        let object = self.behind.next();
        if self.behind.left() > 0 && have_same_counter(object, self.object) {
            let (ahead, count) = next_alike(&mut self.behind);
            self.object = ahead;
            self.alike = count;
        } else {
            self.object = object;
        }
        object
    }

    /// The same columns again.
    pub fn again(&self) -> Self
        ensures { result ≡ self.now }
    {
        CountedObjects {
            object: self.object,
            alike: self.alike,
            behind: self.behind.again(),
        }
    }
}
