//! Room for texts that are put together.
ghost use Rattle.std.specs.Prelude.{◌≡◌, ◌++◌, string_bytes, IfOk, OnOk};
ghost use Rattle.hex.specs.Hex.{encode_lower};

use crate::scalars::push_hexadecimal;
use am_types::{Bytes, same_actor};
use std::alloc::{AllocError, Global};

// An actor, beside its bytes in hexadecimal.
#[derive(Drop)]
pub struct Digits {
    actor: Bytes,
    text: String,
    ghost shown: { string_bytes text ≡ encode_lower actor },
}

impl Digits {
    fn none(alloc: Global) -> Digits {
        Digits {
            actor: Bytes::new(alloc),
            text: String::new(alloc),
        }
    }

    fn of(alloc: Global, actor: &[u8]) -> Result<Digits, AllocError>
        ensures { IfOk result (λ digits. digits.actor ≡ actor.now) }
    {
        let kept = Bytes::copy_of(alloc, actor)?;
        let mut text = String::new(alloc);
        push_hexadecimal(&mut text, actor)?;
        Ok(Digits { actor: kept, text })
    }

    // Goes over to this actor. Mostly it is the one before.
    fn see(&mut self, alloc: Global, actor: &[u8]) -> Result<(), AllocError>
        ensures { OnOk result (self.new.actor ≡ actor.now) }
    {
        if same_actor(self.actor.as_slice(), actor) {
            return Ok(());
        }
        *self = Digits::of(alloc, actor)?;
        Ok(())
    }
}

// Room for a text that is put together, and the digits of the actor that came last.
#[derive(Drop)]
pub struct Room {
    pub text: String,
    digits: Digits,
    alloc: Global,
}

impl Room {
    pub fn new(alloc: Global) -> Room {
        Room {
            text: String::new(alloc),
            digits: Digits::none(alloc),
            alloc,
        }
    }

    // Appends an actor in hexadecimal.
    pub fn push_actor(&mut self, actor: &[u8]) -> Result<(), AllocError>
        ensures { OnOk result (string_bytes self.new.text ≡ string_bytes self.old.text ++ encode_lower actor.now) }
    {
        self.digits.see(self.alloc, actor)?;
        self.text.push_str(self.digits.text.as_str())
    }
}
