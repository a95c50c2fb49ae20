//! The items that a pending run keeps.
ghost use Rattle.std.specs.Prelude.{◌≡◌, ◌≤◌, ◌++◌, ◌∷◌, [], ◌↔◌, length, take, drop, OnOk, IsTrue};

use std::alloc::{AllocError, Global};
use std::marker::Model;

/// Items one after another, and how many bytes the last of them has.
#[derive(Drop)]
pub struct KeptItems {
    bytes: Vec<u8>,
    size: usize,
}

impl Model for KeptItems {
    ghost use Rattle.std.specs.Prelude.{◌≤◌, length};
    ghost use Rattle.am_runs.specs.Kept.{Kept, kept};

    ghost Value = { Kept };

    ghost view = { λ a. kept a.bytes.items a.size };

    ghost invariant = { λ a. a.size ≤ length a.bytes.items };
}

impl KeptItems {
    /// Of no items.
    pub fn new(alloc: Global) -> Self
        ensures front { result.front ≡ [] }
        ensures last { result.last ≡ [] }
    {
        KeptItems {
            bytes: Vec::new(alloc),
            size: 0,
        }
    }

    /// All of them.
    pub fn all(&self) -> &[u8]
        ensures { result.now ≡ self.now.front ++ self.now.last }
    {
        &self.bytes
    }

    /// All but the last.
    pub fn front(&self) -> &[u8]
        ensures { result.now ≡ self.now.front }
    {
        &self.bytes[..self.bytes.len() - self.size]
    }

    /// The last.
    #[inline(always)]
    pub fn last(&self) -> &[u8]
        ensures { result.now ≡ self.now.last }
    {
        &self.bytes[self.bytes.len() - self.size..]
    }

    /// Whether the last is this one byte.
    #[inline(always)]
    pub fn is_byte(&self, byte: u8) -> bool
        ensures { IsTrue result ↔ (self.now.last ≡ byte ∷ []) }
    {
        if self.size != 1 {
            return false;
        }
        self.bytes[self.bytes.len() - 1] == byte
    }

    /// Puts an item in the place of all. Where their bytes have room for it, no memory is asked for.
    #[inline(always)]
    pub fn begin(&mut self, item: &[u8]) -> Result<(), AllocError>
        ensures front { OnOk result (self.new.front ≡ []) }
        ensures last { OnOk result (self.new.last ≡ item.now) }
    {
        self.size = 0;
        self.bytes.truncate(item.len());
        if self.bytes.len() == item.len() {
            self.bytes.as_mut_slice().copy_from_slice(item);
        } else {
            self.bytes.clear();
            self.bytes.extend_from_slice(item)?;
        }
        self.size = item.len();
        Ok(())
    }

    /// Puts an item behind the last.
    #[inline(always)]
    pub fn push(&mut self, item: &[u8]) -> Result<(), AllocError>
        ensures front { OnOk result (self.new.front ≡ self.old.front ++ self.old.last) }
        ensures last { OnOk result (self.new.last ≡ item.now) }
    {
        self.bytes.extend_from_slice(item)?;
        self.size = item.len();
        Ok(())
    }

    /// Puts items behind the last. The last of these begins at this place of their bytes.
    pub fn extend(&mut self, items: &[u8], last: usize) -> Result<(), AllocError>
        requires { last ≤ length items.now }
        ensures front { OnOk result (self.new.front ≡ (self.old.front ++ self.old.last) ++ take last items.now) }
        ensures last { OnOk result (self.new.last ≡ drop last items.now) }
    {
        self.bytes.extend_from_slice(items)?;
        self.size = items.len() - last;
        Ok(())
    }
}
