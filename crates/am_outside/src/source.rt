//! An input.
ghost use Rattle.std.specs.Prelude.{◌≡◌, ◌≤◌, ◌<◌, ◌↔◌, List, ℕ, Option, length, take, is_err, IfOk, OnErr, MatchResult, IfSome, IsTrue};
ghost use Rattle.std.specs.Option.{option_map};
ghost use Rattle.std.specs.Io.{ReadsAtMost};
ghost use Rattle.std.specs.Io.KnownBytes.{prepend_known, IsAtEnd};
ghost use Rattle.am_outside.specs.Calls.{Calls, fails_next, one_more};
ghost use Rattle.am_outside.specs.Counts.{raised, Rose};

use crate::faults::Failed;

/// An input that is read in pieces.
pub trait Source {
    /// The bytes that are left, where it tells them.
    ghost left: { Self → Option (List ℕ) };

    /// How many bytes were taken from it.
    ghost taken: { Self → ℕ };

    /// How often it has failed.
    ghost faults: { Self → ℕ };

    /// How many calls there were and which of them fail, where it tells that.
    ghost calls: { Self → Option Calls };

    /// Moves the next bytes into the front of the buffer, and says how many: 0 only at the end, or into a buffer
    /// that is empty. What stands in the buffer behind them is open. A call that fails takes nothing from the input,
    /// and leaves the whole buffer open.
    fn read(&mut self, buffer: &mut [u8]) -> Result<usize, Failed>
        ensures bound { ReadsAtMost result buffer.new }
        ensures bytes { IfOk result (λ n. left self.old ≡ prepend_known (take n buffer.new) (left self.new)) }
        ensures end { IfOk result (λ n. n ≡ 0 → 0 < length buffer.new → IsAtEnd (left self.new)) }
        ensures err { OnErr result (left self.new ≡ left self.old) }
        ensures taken { MatchResult result (λ n. taken self.new ≡ raised (taken self.old) n) (λ _. taken self.new ≡ taken self.old) }

        ensures failed { OnErr result (Rose (faults self.old) (faults self.new)) }
        ensures faults { faults self.old ≤ faults self.new }
        ensures call { calls self.new ≡ option_map one_more (calls self.old) }
        ensures exact { IfSome (calls self.old) (λ c. IsTrue (is_err result) ↔ IsTrue (fails_next c)) };
}
