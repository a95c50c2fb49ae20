//! Text that contracts see as the list of its bytes.
ghost use Rattle.std.specs.Prelude.{◌≡◌, ◌≤◌, ◌++◌, [], length, IsOk, IfOk, OnOk, OnErr, IsUtf8, string_bytes};

use crate::bytes::Bytes;
use std::alloc::{AllocError, Global};
use std::fmt;
use std::marker::Model;
use std::str::from_utf8_unchecked;

/// Text that is owned. A contract sees it as the list of its UTF-8 bytes. Up to sixteen lie in the value itself and take
/// no memory.
#[derive(Drop)]
pub struct Text {
    bytes: Bytes,
}

impl Model for Text {
    ghost use Rattle.std.specs.Prelude.{List, ℕ, IsUtf8};

    ghost Value = { List ℕ };

    ghost view = { λ t. t.bytes };

    ghost invariant = { λ t. ∥ IsUtf8 t.bytes ∥₁ };
}

impl Text {
    /// The empty text. Nothing is allocated yet.
    pub fn new(alloc: Global) -> Self
        ensures { result ≡ [] }
    {
        Text {
            bytes: Bytes::new(alloc),
        }
    }

    /// A copy of the text. A short one takes no memory.
    pub fn copy_of(alloc: Global, text: &str) -> Result<Self, AllocError>
        ensures copy { IfOk result (λ copy. copy ≡ text.now) }
        ensures short { length text.now ≤ 16 → IsOk result }
    {
        Ok(Text {
            bytes: Bytes::copy_of(alloc, text.as_bytes())?,
        })
    }

    /// How many bytes the text has.
    pub fn len(&self) -> usize
        ensures { result ≡ length self.now }
    {
        self.bytes.len()
    }

    /// The whole text.
    pub fn as_str(&self) -> &str
        ensures { result.now ≡ self.now }
    {
        unsafe { from_utf8_unchecked(self.bytes.as_slice()) }
    }

    /// Appends a text, all of it or, without memory, nothing.
    pub fn push_str(&mut self, text: &str) -> Result<(), AllocError>
        ensures ok { OnOk result (self.new ≡ self.old ++ text.now) }
        ensures err { OnErr result (self.new ≡ self.old) }
    {
        self.bytes.push_slice(text.as_bytes())?;
        Ok(())
    }
}

impl From<String> for Text {
    ghost from_gives = { λ s t. t ≡ string_bytes s };

    fn from(text: String) -> Self {
        Text {
            bytes: Bytes::from(text.into_bytes()),
        }
    }
}

impl fmt::Debug for Text {
    fn fmt<W: fmt::Write>(&self, f: &mut fmt::Formatter<W>) -> fmt::Result {
        f.debug_struct("Text")
            .field("text", &self.as_str())
            .finish()
    }
}

impl PartialEq for Text {
    ghost use Rattle.std.specs.Prelude.{nat_eq};
    ghost use lib.Pointwise.{pointwise};
    ghost use Rattle.std.specs.Cmp.{partial_equiv_from_equiv};
    ghost use Rattle.std.specs.Cmp.Lexicographic.{nat_list_eq_equiv};

    ghost eq = { pointwise nat_eq };

    ghost laws = { partial_equiv_from_equiv nat_list_eq_equiv };

    fn eq(&self, other: &Self) -> bool {
        self.as_str().as_bytes() == other.as_str().as_bytes()
    }
}

impl Eq for Text {
    ghost use Rattle.std.specs.Cmp.Lexicographic.{nat_list_eq_equiv};

    ghost laws = { nat_list_eq_equiv };
}
