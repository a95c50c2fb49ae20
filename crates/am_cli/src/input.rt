//! The whole script, read from an input.
ghost use Rattle.std.specs.Prelude.{◌≡◌, ◌≤◌, ◌<◌, ◌++◌, ◌+◌, ℕ, List, length, IfOk, IfSome, IsErrOf};
ghost use Rattle.std.specs.Io.KnownBytes.{prepend_known, IsAtEnd};
ghost use Rattle.am_outside.specs.Counts.{raised, Rose, RoseBy};
ghost use Rattle.am_session.specs.FirstFault.{Ended, is_err_at};
ghost use Rattle.am_cli.specs.Faults.{is_failed_read};
ghost use Rattle.am_cli.specs.Top.{IsWhole, input_of};

use am_outside::{Failed, Source};
use std::alloc::{AllocError, Global};
use thiserror::Error;

/// The longest script, in bytes.
pub const LONGEST: usize = 16_777_216;

/// Why a script wasn't read.
#[derive(Clone, Copy, Debug, PartialEq, Eq, Error)]
pub enum Unread {
    /// The input failed.
    #[error("the input failed")]
    Failed,
    /// The input is longer than a script may be.
    #[error("the script is too long")]
    Long,
    /// Out of memory.
    #[error("no memory")]
    NoMemory,
}

impl From<Failed> for Unread {
    ghost use Rattle.std.specs.Prelude.{◌≡◌};
    ghost use Rattle.am_cli.specs.declared.input.Unread.TheVariants as unread;

    ghost from_gives = { λ _ e. e ≡ unread.Failed };

    fn from(_: Failed) -> Self {
        Unread::Failed
    }
}

impl From<AllocError> for Unread {
    ghost use Rattle.std.specs.Prelude.{◌≡◌};
    ghost use Rattle.am_cli.specs.declared.input.Unread.TheVariants as unread;

    ghost from_gives = { λ _ e. e ≡ unread.NoMemory };

    fn from(_: AllocError) -> Self {
        Unread::NoMemory
    }
}

// Adds the next piece to a script, and says how long it is: 0 at the end alone. A read is one call, and no other follows.
#[tactic(auto, using(am_session::proofs::FirstFault::call_went, am_session::proofs::FirstFault::call_failed))]
fn read_piece<I: Source>(
    input: &mut I,
    buffer: &mut [u8],
    script: &mut Vec<u8>,
) -> Result<usize, Unread>
    requires { 0 < length buffer.old }
    ensures piece { IfOk result (λ n. (piece : List ℕ) × (length piece ≡ n) × (n ≤ length buffer.old) × (script.new.items ≡ script.old.items ++ piece) × (I.left input.old ≡ prepend_known piece (I.left input.new))) }
    ensures end { IfOk result (λ n. n ≡ 0 → IsAtEnd (I.left input.new)) }
    ensures taken { IfOk result (λ n. I.taken input.new ≡ raised (I.taken input.old) n) }
    ensures bound { I.taken input.new ≤ I.taken input.old + length buffer.old }
    ensures faults { I.faults input.old ≤ I.faults input.new }
    ensures failed { IsErrOf result Unread.Failed → Rose (I.faults input.old) (I.faults input.new) }
    ensures never_long { IsErrOf result Unread.Long → ⊥ }
    ensures ended { Ended (is_err_at is_failed_read result) (I.calls input.old) (I.calls input.new) }
{
    let count = input.read(buffer)?;
    let (piece, _) = buffer.split_at(count);
    script.extend_from_slice(piece)?;
    Ok(count)
}

/// The whole input, where it isn't too long. The first fault ends it.
#[tactic(auto, using(crate::proofs::Source::left_start, crate::proofs::Source::left_more, crate::proofs::Source::rose_more, crate::proofs::Source::all_read, crate::proofs::Source::longer, crate::proofs::Source::counted_more, crate::proofs::Source::counted_end, am_session::proofs::FirstFault::no_call, am_session::proofs::FirstFault::ended_more))]
pub fn read_all<I: Source>(alloc: Global, input: &mut I) -> Result<Vec<u8>, Unread>
    ensures whole { IfOk result (λ script. IsWhole script.items (input_of (I.left input.old) (I.taken input.old)) (input_of (I.left input.new) (I.taken input.new))) }
    ensures bound { I.taken input.new ≤ I.taken input.old + (LONGEST + 1) }
    ensures faults { I.faults input.old ≤ I.faults input.new }
    ensures failed { IsErrOf result Unread.Failed → Rose (I.faults input.old) (I.faults input.new) }
    ensures long { IsErrOf result Unread.Long → RoseBy (LONGEST + 1) (I.taken input.old) (I.taken input.new) }
    ensures more { IsErrOf result Unread.Long → IfSome (I.left input.old) (λ all. LONGEST < length all) }
    ensures ended { Ended (is_err_at is_failed_read result) (I.calls input.old) (I.calls input.new) }
{
    let mut script = Vec::new(alloc);
    let mut buffer = [0u8; 4096];
    'pieces: while script.len() <= LONGEST {
        let room = (LONGEST + 1 - script.len()).min(4096);
        if read_piece(input, &mut buffer[..room], &mut script)? == 0 {
            return Ok(script);
        }
    }
    Err(Unread::Long)
}
