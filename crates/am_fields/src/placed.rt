//! Items of a field in columns: the places of their actors, and what stands beside.
ghost use Rattle.std.specs.Prelude.{◌≡◌, ◌+◌, ◌≤◌, ◌<◌, ◌^◌, ◌++◌, ◌∷◌, ◌↔◌, List, Some, length, map, take, drop, option_map, IfOk, IfSome, OnOk, OnErr, IsTrue};
ghost use Rattle.am_fields.specs.Columns.{place_of};
ghost use Rattle.am_fields.specs.Reading.{readings, AllRead, AllReadAt};
ghost use Rattle.am_fields.specs.Spelling.{SpellsPlaced};

use crate::actors::Actors;
use crate::beside::{Beside, Counters, RowCells};
use crate::fault::BadFields;
use crate::listed::ListedActors;
use crate::moving::move_places;
use crate::number_writer::NumberWriter;
use crate::numbers::NumberColumn;
use std::alloc::AllocError;
use std::marker::Model;

/// Items, one a row, each read of the place of its actor and what stands beside. What they spell, where one column of
/// counters is beside, is `SpellsPlaced` (specs/Spelling.antt).
#[derive(Drop)]
pub struct PlacedColumns<'a, B: RowCells> {
    pub(crate) actor: NumberColumn<'a>,
    pub(crate) beside: B,
    pub(crate) actors: Actors<'a>,
}

impl<'a, B: RowCells> Model for PlacedColumns<'a, B> {
    ghost use Rattle.std.specs.Prelude.{List};
    ghost use Rattle.am_fields.specs.Reading.{readings, AllRead};

    ghost Value = { List B.Value };

    ghost view = { λ c. readings (B.rows.read c.actors) c.actor (B.cells c.beside) };

    ghost invariant = { λ c. AllRead (B.rows.read c.actors) c.actor (B.cells c.beside) };
}

// Whether each of the next n rows, all of this place, is read as an item. Where each is, it goes behind them.
fn are_read_alike<'a, B: Beside<'a>>(
    rest: &mut B,
    actors: &mut Actors<'a>,
    place: Option<u64>,
    n: u64,
) -> bool
    requires { n ≤ length (B.cells rest.old) }
    ensures same { actors.new ≡ actors.old }
    ensures read { IsTrue result ↔ AllReadAt (B.rows.read actors.old) place (take n (B.cells rest.old)) }
    ensures behind { IsTrue result → B.cells rest.new ≡ drop n (B.cells rest.old) }
{
    if n == 1 {
        return rest.item(actors, place).is_some();
    }
    rest.judge_alike(actors, place, n)
}

// Whether each row is read as an item. Rows with the same place are judged together.
fn are_read<'a, B: Beside<'a>>(actors: &Actors<'a>, actor: &NumberColumn<'a>, beside: &B) -> bool
    requires { length actor.now ≡ length (B.cells beside.now) }
    ensures { IsTrue result ↔ AllRead (B.rows.read actors.now) actor.now (B.cells beside.now) }
{
    let mut known = actors.again();
    let mut places = actor.again();
    let mut rest = beside.again();
    while places.left() > 0 {
        let (place, count) = places.next_alike_within(u64::MAX);
        if !are_read_alike(&mut rest, &mut known, place, count) {
            return false;
        }
    }
    true
}

impl<'a, B: RowCells> PlacedColumns<'a, B> {
    /// The columns, of which each row is known to be read as an item.
    pub(crate) fn known(actor: NumberColumn<'a>, beside: B, actors: &Actors<'a>) -> Self
        requires { AllRead (B.rows.read actors.now) actor (B.cells beside) }
        ensures { result ≡ readings (B.rows.read actors.now) actor.entry (B.cells beside) }
    {
        PlacedColumns {
            actor,
            beside,
            actors: actors.again(),
        }
    }

    // Leaves out the next n items, without reading them.
    pub(crate) fn leap(&mut self, n: u64)
        requires { n ≤ length self.old }
        ensures { self.new ≡ drop n self.old }
    {
        self.actor.skip(n);
        self.beside.skip(n);
    }

    /// How many items are left.
    pub fn left(&self) -> u64
        ensures { result ≡ length self.now }
    {
        self.actor.left()
    }

    /// The same columns again.
    pub fn again(&self) -> Self
        ensures { result ≡ self.now }
    {
        PlacedColumns {
            actor: self.actor.again(),
            beside: self.beside.again(),
            actors: self.actors.again(),
        }
    }
}

impl<'a, B: Beside<'a>> PlacedColumns<'a, B> {
    /// The columns, if each of their rows is read as an item.
    pub(crate) fn judged(
        actor: NumberColumn<'a>,
        beside: B,
        actors: &Actors<'a>,
    ) -> Result<Self, BadFields>
        requires { length actor ≡ length (B.cells beside) }
        ensures read { IfOk result (λ _. AllRead (B.rows.read actors.now) actor.entry (B.cells beside)) }
        ensures items { IfOk result (λ c. c ≡ readings (B.rows.read actors.now) actor.entry (B.cells beside)) }
        ensures err { OnErr result (AllRead (B.rows.read actors.now) actor.entry (B.cells beside) → ⊥) }
    {
        if !are_read(actors, &actor, &beside) {
            return Err(BadFields);
        }
        Ok(PlacedColumns {
            actor,
            beside,
            actors: actors.again(),
        })
    }

    /// The next item.
    pub fn next(&mut self) -> B::Item
        requires { 0 < length self.old }
        ensures { self.old ≡ B.item_of result ∷ self.new }
    {
        match self.beside.item(&mut self.actors, self.actor.next()) {
            Some(item) => item,
            None => unreachable!(),
        }
    }

    // Leaves out the next n items one by one, so that the actor of the last is known.
    fn pass(&mut self, n: u64)
        requires { n ≤ length self.old }
        ensures { self.new ≡ drop n self.old }
    {
        for _passed in 0..n {
            let _item = self.next();
        }
    }

    /// Leaves out the next n items.
    pub fn skip(&mut self, n: u64)
        requires { n ≤ length self.old }
        ensures { self.new ≡ drop n self.old }
    {
        if n <= B::FEW {
            self.pass(n);
        } else {
            self.leap(n);
        }
    }
}

impl<'a, C: Counters<'a>> PlacedColumns<'a, C> {
    /// The two columns that have this many items, each within its limits. `BadFields` where the bytes spell no such
    /// list.
    pub fn over(
        actor: &'a [u8],
        counter: &'a [u8],
        actors: &Actors<'a>,
        count: u64,
    ) -> Result<Self, BadFields>
        ensures spelled { IfOk result (SpellsPlaced C.rows.actor_of C.rows.cell_of C.rows.Within C.spells actors.now actor.now counter.now) }
        ensures count { IfOk result (λ c. length c ≡ count) }
        ensures err { OnErr result ((items : List C.Value) → SpellsPlaced C.rows.actor_of C.rows.cell_of C.rows.Within C.spells actors.now actor.now counter.now items → length items ≡ count → ⊥) }
    {
        let places = NumberColumn::over(actor, count)?;
        let counters = C::over(counter, count)?;
        PlacedColumns::judged(places, counters, actors)
    }

    /// The two columns of this many items, which they are known to spell.
    pub fn spelled(actor: &'a [u8], counter: &'a [u8], actors: &Actors<'a>, count: u64) -> Self
        requires { (items : List C.Value) × SpellsPlaced C.rows.actor_of C.rows.cell_of C.rows.Within C.spells actors.now actor.now counter.now items × (length items ≡ count) }
        ensures spelled { SpellsPlaced C.rows.actor_of C.rows.cell_of C.rows.Within C.spells actors.now actor.now counter.now result }
        ensures count { length result ≡ count }
    {
        let places = NumberColumn::spelled(actor, count);
        let counters = C::spelled(counter, count);
        PlacedColumns::known(places, counters, actors)
    }

    /// Appends the next n items to the writers of places and of counters, by runs. The place of an actor is that among
    /// these actors. An error says that memory was wanted.
    pub fn copy_to(
        &mut self,
        places: &mut NumberWriter,
        counters: &mut C::Writer,
        actors: &ListedActors<'_>,
        n: u64,
    ) -> Result<(), AllocError>
        requires places { IfSome places.old (λ xs. length xs + n ≤ 2 ^ 32) }
        requires counters { IfSome (C.written counters.old) (λ xs. length xs + n ≤ 2 ^ 32) }
        requires enough { n ≤ length self.old }
        ensures places { OnOk result (IfSome places.old (λ xs. places.new ≡ Some (xs ++ map (option_map (place_of actors.now)) (map C.rows.actor_of (take n self.old))))) }
        ensures counters { OnOk result (IfSome (C.written counters.old) (λ xs. C.written counters.new ≡ Some (xs ++ map C.rows.cell_of (take n self.old)))) }
        ensures behind { OnOk result (self.new ≡ drop n self.old) }
    {
        let mut actor = self.actor.again();
        let mut beside = self.beside.again();
        move_places(places, &mut actor, &mut self.actors, actors, n)?;
        beside.copy_to(counters, n)?;
        self.actor = actor;
        self.beside = beside;
        Ok(())
    }
}
