//! A list of values, spelled at once.
ghost use Rattle.std.specs.Prelude.{◌≡◌, ◌≤◌, ◌^◌, ◌++◌, ◌∷◌, [], length, IfSome, OnOk, OnErr};
ghost use Rattle.am_delta.specs.Deltas.{IsMiddling, canonical_delta_bytes};

use crate::writer::{difference_to, value_or};
use am_runs::{SignedItem, push_list};
use std::alloc::{AllocError, Global};
use std::marker::Model;

/// A list of values that is spelled at once. A contract sees the values.
#[derive(Drop)]
pub struct DeltaList {
    differences: Vec<Option<i64>>,
    last: i64,
}

impl Model for DeltaList {
    ghost use Rattle.std.specs.Prelude.{ℤ, List, Option, pos};

    ghost Value = { List (Option ℤ) };

    ghost use Rattle.am_delta.specs.Deltas.{sums_from, KeepsLast};

    ghost view = { λ a. sums_from (pos 0) a.differences.items };

    ghost invariant = { λ a. KeepsLast a.differences.items a.last };
}

impl DeltaList {
    /// No values. Nothing is allocated yet.
    pub fn new(alloc: Global) -> Self
        ensures { result ≡ [] }
    {
        DeltaList {
            differences: Vec::new(alloc),
            last: 0,
        }
    }

    /// Has no values again. The memory stays.
    pub fn clear(&mut self)
        ensures { self.new ≡ [] }
    {
        self.differences.clear();
        self.last = 0;
    }

    /// Appends a value. Without memory nothing has changed.
    pub fn push(&mut self, value: Option<i64>) -> Result<(), AllocError>
        requires { IfSome value IsMiddling }
        ensures ok { OnOk result (self.new ≡ self.old ++ value ∷ []) }
        ensures err { OnErr result (self.new ≡ self.old) }
    {
        self.differences.push(difference_to(value, self.last))?;
        self.last = value_or(value, self.last);
        Ok(())
    }

    /// Appends the one canonical spelling of the values to the bytes. An error says that memory was wanted; what the bytes are
    /// then isn't said.
    pub fn push_to(&self, out: &mut Vec<u8>) -> Result<(), AllocError>
        requires { length self.now ≤ 2 ^ 32 }
        ensures { OnOk result (out.new.items ≡ out.old.items ++ canonical_delta_bytes self.now) }
    {
        push_list::<i64, SignedItem>(out, self.differences.as_slice())
    }
}
