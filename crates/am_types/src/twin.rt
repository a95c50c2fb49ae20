//! Copies, which can want memory.
ghost use Rattle.std.specs.Prelude.{◌≡◌, IfOk};

use crate::bytes::Bytes;
use crate::change::{Change, Op};
use crate::document::{Document, Entry, Meta, Row, Table};
use crate::hash::Hash;
use crate::ids::{Key, ObjId, OpId};
use crate::list::List;
use crate::text::Text;
use crate::value::RawValue;
use std::alloc::{AllocError, Global};

// The struct whose first fields are copied, in this order, and whose others are plain.
macro_rules! copied {
    ($from:expr, $alloc:expr, $name:ident { $($field:ident),*; $($plain:ident),* }) => {{
        $(let $field = $from.$field.copy($alloc)?;)*
        Ok($name { $($field,)* $($plain: $from.$plain,)* })
    }};
}

/// A value that can be copied, given memory.
pub trait Twin {
    /// An equal value.
    fn copy(&self, alloc: Global) -> Result<Self, AllocError>
        ensures { IfOk result (λ twin. twin ≡ self.now) };
}

impl Twin for u64 {
    fn copy(&self, _alloc: Global) -> Result<u64, AllocError> {
        Ok(*self)
    }
}

impl Twin for Hash {
    fn copy(&self, _alloc: Global) -> Result<Hash, AllocError> {
        Ok(*self)
    }
}

impl Twin for Bytes {
    fn copy(&self, alloc: Global) -> Result<Bytes, AllocError> {
        Bytes::copy_of(alloc, self.as_slice())
    }
}

impl Twin for Text {
    fn copy(&self, alloc: Global) -> Result<Text, AllocError> {
        Text::copy_of(alloc, self.as_str())
    }
}

impl<T: Twin + Drop> Twin for List<T> {
    fn copy(&self, alloc: Global) -> Result<List<T>, AllocError> {
        let mut twin = List::new(alloc);
        for item in self.as_slice() {
            twin.push(item.copy(alloc)?)?;
        }
        Ok(twin)
    }
}

impl<T: Twin> Twin for Option<T> {
    fn copy(&self, alloc: Global) -> Result<Option<T>, AllocError> {
        match self {
            Some(item) => Ok(Some(item.copy(alloc)?)),
            None => Ok(None),
        }
    }
}

impl Twin for OpId {
    fn copy(&self, alloc: Global) -> Result<OpId, AllocError> {
        copied!(self, alloc, OpId { actor; counter })
    }
}

impl Twin for ObjId {
    fn copy(&self, alloc: Global) -> Result<ObjId, AllocError> {
        match self {
            ObjId::Root => Ok(ObjId::Root),
            ObjId::Made(id) => Ok(ObjId::Made(id.copy(alloc)?)),
        }
    }
}

impl Twin for Key {
    fn copy(&self, alloc: Global) -> Result<Key, AllocError> {
        match self {
            Key::Name(name) => Ok(Key::Name(name.copy(alloc)?)),
            Key::Head => Ok(Key::Head),
            Key::Elem(id) => Ok(Key::Elem(id.copy(alloc)?)),
        }
    }
}

impl Twin for RawValue {
    fn copy(&self, alloc: Global) -> Result<RawValue, AllocError> {
        copied!(self, alloc, RawValue { raw; kind })
    }
}

impl Twin for Op {
    fn copy(&self, alloc: Global) -> Result<Op, AllocError> {
        copied!(self, alloc, Op { obj, key, value, preds, mark; insert, action, expand })
    }
}

impl Twin for Change {
    fn copy(&self, alloc: Global) -> Result<Change, AllocError> {
        copied!(self, alloc, Change { deps, actor, message, ops, extra; seq, start, time })
    }
}

impl Twin for Row {
    fn copy(&self, alloc: Global) -> Result<Row, AllocError> {
        copied!(self, alloc, Row { obj, key, id, value, succs, mark; insert, action, expand })
    }
}

impl Twin for Meta {
    fn copy(&self, alloc: Global) -> Result<Meta, AllocError> {
        copied!(self, alloc, Meta { actor, message, deps, extra; seq, max, time })
    }
}

impl Twin for Table {
    fn copy(&self, alloc: Global) -> Result<Table, AllocError> {
        copied!(self, alloc, Table { actors, heads, metas, rows, suffix; })
    }
}

impl Twin for Entry {
    fn copy(&self, alloc: Global) -> Result<Entry, AllocError> {
        copied!(self, alloc, Entry { obj, slot, id, value; action, total })
    }
}

impl Twin for Document {
    fn copy(&self, alloc: Global) -> Result<Document, AllocError> {
        copied!(self, alloc, Document { entries; })
    }
}
