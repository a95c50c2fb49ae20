//! An output.
ghost use Rattle.std.specs.Prelude.{◌≡◌, ◌≤◌, ◌<◌, ◌↔◌, List, ℕ, Option, length, take, IfOk, OnErr, IsErrOf, IfSome, IsTrue};
ghost use Rattle.std.specs.Option.{option_map};
ghost use Rattle.std.specs.Io.{WritesAtMost};
ghost use Rattle.std.specs.Io.KnownBytes.{append_known};
ghost use Rattle.am_outside.specs.Calls.{Calls, fails_next, one_more};
ghost use Rattle.am_outside.specs.Counts.{Rose};

use crate::faults::WriteFault;

/// An output that is written in pieces.
pub trait Sink {
    /// The bytes that were written, where it tells them.
    ghost written: { Self → Option (List ℕ) };

    /// How often it has failed.
    ghost faults: { Self → ℕ };

    /// How many calls there were and which of them fail, where it tells that.
    ghost calls: { Self → Option Calls };

    /// Writes a front part of the piece, and says how long it is: at least one byte where the piece isn't empty.
    /// After a refusal nothing was written.
    fn write(&mut self, piece: &[u8]) -> Result<usize, WriteFault>
        ensures bound { WritesAtMost result piece.now }
        ensures some { IfOk result (λ n. 0 < length piece.now → 0 < n) }
        ensures bytes { IfOk result (λ n. written self.new ≡ append_known (written self.old) (take n piece.now)) }
        ensures err { OnErr result (written self.new ≡ written self.old) }

        ensures failed { IsErrOf result WriteFault.Failed → Rose (faults self.old) (faults self.new) }
        ensures faults { faults self.old ≤ faults self.new }
        ensures call { calls self.new ≡ option_map one_more (calls self.old) }
        ensures exact { IfSome (calls self.old) (λ c. IsErrOf result WriteFault.Failed ↔ IsTrue (fails_next c)) };
}
