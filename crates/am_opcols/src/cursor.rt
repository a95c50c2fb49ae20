//! A cursor over the operations of a change. It takes no memory.
ghost use Rattle.std.specs.Prelude.{◌≡◌, ◌∷◌, [], List, length, IfOk, IfSome, IfNone, OnErr};
ghost use Rattle.am_types.specs.declared.Op.{Op};
ghost use Rattle.am_opcols.specs.Columns.{SpellsOps};
ghost use Rattle.am_opcols.specs.Rows.{op_of, head_with};

use crate::fault::BadOps;
use crate::found::OpColumns;
use crate::op::{OpHead, OpRef};
use am_colmeta::{ActorList, Columns};
use am_fields::{
    ActionColumn, Actors, BadFields, CountedObjects, FlagColumn, GroupColumns,
    IdCursor as PredCursor, KeyColumns, TextColumn, ValueColumns, specifications,
};
use std::marker::Model;

/// The operations of a change, one after another.
#[derive(Drop)]
pub struct OpCursor<'a> {
    objects: CountedObjects<'a>,
    keys: KeyColumns<'a>,
    inserts: FlagColumn<'a>,
    actions: ActionColumn<'a>,
    values: ValueColumns<'a>,
    preds: GroupColumns<'a>,
    expands: FlagColumn<'a>,
    marks: TextColumn<'a>,
}

impl<'a> Model for OpCursor<'a> {
    ghost use Rattle.std.specs.Prelude.{List, length, ◌≡◌};
    ghost use Rattle.am_types.specs.declared.Op.{Op};

    ghost Value = { List Op };

    ghost use Rattle.am_opcols.specs.Rows.{ops_from};

    ghost view = { λ c. ops_from c.objects c.keys c.inserts c.actions c.values c.preds c.expands c.marks };

    ghost invariant = { λ c. (length c.objects ≡ length c.actions)
        × (length c.keys ≡ length c.actions)
        × (length c.inserts ≡ length c.actions)
        × (length c.values ≡ length c.actions)
        × (length c.preds ≡ length c.actions)
        × (length c.expands ≡ length c.actions)
        × (length c.marks ≡ length c.actions) };
}

// The cursor over columns whose places name these actors. In a change all metadata of values and all lengths of groups
// stand.
fn cursor_over<'a>(columns: &OpColumns<'a>, actors: &Actors<'a>) -> Result<OpCursor<'a>, BadFields>
    ensures spelled { IfOk result (SpellsOps actors.now columns.now) }
    ensures err { OnErr result ((ops : List Op) → SpellsOps actors.now columns.now ops → ⊥) }
{
    let action = columns.find(specifications::ACTION);
    let insert = columns.find(specifications::INSERT);
    let expand = columns.find(specifications::EXPAND);
    let mark = columns.find(specifications::MARK);
    let object_actor = columns.find(specifications::OBJECT_ACTOR);
    let object_counter = columns.find(specifications::OBJECT_COUNTER);
    let key_actor = columns.find(specifications::KEY_ACTOR);
    let key_counter = columns.find(specifications::KEY_COUNTER);
    let key_name = columns.find(specifications::KEY_NAME);
    let numbers = columns.find(specifications::VALUE_METADATA);
    let raw = columns.find(specifications::VALUE_RAW);
    let group = columns.find(specifications::PRED_COUNT);
    let pred_actor = columns.find(specifications::PRED_ACTOR);
    let pred_counter = columns.find(specifications::PRED_COUNTER);
    let actions = ActionColumn::over(action)?;
    let count = actions.left();
    let objects = CountedObjects::over(object_actor, object_counter, actors, count)?;
    let keys = KeyColumns::over(key_actor, key_counter, key_name, actors, count)?;
    let inserts = FlagColumn::over(insert, count)?;
    let values = ValueColumns::given(numbers, raw, count)?;
    let preds = GroupColumns::given(group, pred_actor, pred_counter, actors, count)?;
    let expands = FlagColumn::over(expand, count)?;
    let marks = TextColumn::over(mark, count)?;
    Ok(OpCursor {
        objects,
        keys,
        inserts,
        actions,
        values,
        preds,
        expands,
        marks,
    })
}

impl<'a> OpCursor<'a> {
    /// The cursor over the columns of a change by this author, whose operations name these other actors.
    pub fn over(
        columns: Columns<'a>,
        author: &'a [u8],
        others: ActorList<'a>,
    ) -> Result<Self, BadOps>
        ensures spelled { IfOk result (SpellsOps (author.now ∷ others.entry) columns.entry) }
        ensures err { OnErr result ((ops : List Op) → SpellsOps (author.now ∷ others.entry) columns.entry ops → ⊥) }
    {
        OpColumns::of(columns).ops(author, others)
    }

    /// The next operation, or None behind the last.
    pub fn next(&mut self) -> Option<OpRef<'a>>
        ensures end { IfNone result ((self.old ≡ []) × (self.new ≡ [])) }
        ensures next { IfSome result (λ op. self.old ≡ op_of op ∷ self.new) }
    {
        if self.actions.left() == 0 {
            return None;
        }
        Some(OpRef {
            obj: self.objects.next(),
            key: self.keys.next(),
            insert: self.inserts.next(),
            action: self.actions.next(),
            value: self.values.next(),
            preds: self.preds.next(),
            expand: self.expands.next(),
            mark: self.marks.next(),
        })
    }

    /// The next operation but for its predecessors, or None behind the last. The predecessors are put into a cursor that is
    /// there, in place of what it had.
    pub fn next_into(&mut self, preds: &mut PredCursor<'a>) -> Option<OpHead<'a>>
        ensures end { IfNone result ((self.old ≡ []) × (self.new ≡ [])) }
        ensures next { IfSome result (λ op. self.old ≡ head_with op preds.new ∷ self.new) }
    {
        if self.actions.left() == 0 {
            return None;
        }
        let head = OpHead {
            obj: self.objects.next(),
            key: self.keys.next(),
            insert: self.inserts.next(),
            action: self.actions.next(),
            value: self.values.next(),
            expand: self.expands.next(),
            mark: self.marks.next(),
        };
        self.preds.next_into(preds);
        Some(head)
    }

    /// How many operations are left.
    pub fn left(&self) -> u64
        ensures { result ≡ length self.now }
    {
        self.actions.left()
    }

    /// The same cursor again.
    pub fn again(&self) -> Self
        ensures { result ≡ self.now }
    {
        OpCursor {
            objects: self.objects.again(),
            keys: self.keys.again(),
            inserts: self.inserts.again(),
            actions: self.actions.again(),
            values: self.values.again(),
            preds: self.preds.again(),
            expands: self.expands.again(),
            marks: self.marks.again(),
        }
    }
}

impl<'a> OpColumns<'a> {
    /// A cursor over the operations, as `OpCursor::over` gives it.
    pub fn ops(&self, author: &'a [u8], others: ActorList<'a>) -> Result<OpCursor<'a>, BadOps>
        ensures spelled { IfOk result (SpellsOps (author.now ∷ others.entry) self.now) }
        ensures err { OnErr result ((ops : List Op) → SpellsOps (author.now ∷ others.entry) self.now ops → ⊥) }
    {
        let actors = Actors::of_change(author, others);
        match cursor_over(self, &actors) {
            Ok(cursor) => Ok(cursor),
            Err(_) => Err(BadOps),
        }
    }
}
