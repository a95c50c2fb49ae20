//! A folder of files.
ghost use Rattle.std.specs.Prelude.{◌≡◌, ◌≤◌, ◌↔◌, ℕ, Option, IfOk, OnOk, IsErrOf, IfSome, IsTrue};
ghost use Rattle.std.specs.Option.{option_map};
ghost use Rattle.std.specs.FinMap.{insert};
ghost use Rattle.am_outside.specs.Calls.{Calls, fails_next, one_more};
ghost use Rattle.am_outside.specs.Counts.{Rose};
ghost use Rattle.am_outside.specs.Files.{Files, Stands, SameBut};

use crate::faults::{FetchFault, WriteFault};
use std::alloc::Global;

/// Files by their names.
pub trait Folder {
    /// The files, where it tells them.
    ghost files: { Self → Option Files };

    /// How often a file was asked for that isn't there.
    ghost misses: { Self → ℕ };

    /// How often it has failed.
    ghost faults: { Self → ℕ };

    /// How many calls there were and which of them fail, where it tells that.
    ghost calls: { Self → Option Calls };

    /// The bytes of a file. No file changes.
    fn fetch(&mut self, alloc: Global, name: &str) -> Result<Vec<u8>, FetchFault>
        ensures same { files self.new ≡ files self.old }
        ensures bytes { IfOk result (λ file. Stands (files self.old) name.now (Some file.items)) }
        ensures none { IsErrOf result FetchFault.Absent → Stands (files self.old) name.now None }

        ensures absent { IsErrOf result FetchFault.Absent → Rose (misses self.old) (misses self.new) }
        ensures misses { misses self.old ≤ misses self.new }
        ensures failed { IsErrOf result FetchFault.Failed → Rose (faults self.old) (faults self.new) }
        ensures faults { faults self.old ≤ faults self.new }
        ensures call { calls self.new ≡ option_map one_more (calls self.old) }
        ensures exact { IfSome (calls self.old) (λ c. IsErrOf result FetchFault.Failed ↔ IsTrue (fails_next c)) };

    /// Puts a file under this name, in place of one that is there. After a failure that one file may hold
    /// anything, or be gone; the others stay. Without memory all files stay.
    fn keep(&mut self, name: &str, bytes: &[u8]) -> Result<(), WriteFault>
        ensures kept { OnOk result (files self.new ≡ option_map (λ all. insert all name.now bytes.now) (files self.old)) }
        ensures no_memory { IsErrOf result WriteFault.NoMemory → files self.new ≡ files self.old }
        ensures others { IsErrOf result WriteFault.Failed → SameBut name.now (files self.old) (files self.new) }

        ensures misses { misses self.old ≤ misses self.new }
        ensures failed { IsErrOf result WriteFault.Failed → Rose (faults self.old) (faults self.new) }
        ensures faults { faults self.old ≤ faults self.new }
        ensures call { calls self.new ≡ option_map one_more (calls self.old) }
        ensures exact { IfSome (calls self.old) (λ c. IsErrOf result WriteFault.Failed ↔ IsTrue (fails_next c)) };
}
