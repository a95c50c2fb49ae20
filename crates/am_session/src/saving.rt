//! The commands that keep a file.
ghost use Rattle.std.specs.Prelude.{◌≡◌, ◌≤◌, length, IfOk, IsErrOf};
ghost use Rattle.am_outside.specs.Counts.{Rose};
ghost use Rattle.am_outside.specs.Files.{SameBut};
ghost use Rattle.am_session.specs.declared.request.Request.TheVariants.{Do};
ghost use Rattle.am_script.specs.declared.Command.TheVariants.{Save, SaveAll, Export};
ghost use Rattle.am_session.specs.Replies.{kept_reply};
ghost use Rattle.am_session.specs.Machine.{with_file};
ghost use Rattle.am_session.specs.Answered.{Answered, seen};
ghost use Rattle.am_session.specs.FirstFault.{Ended, is_err_at, is_file_stop};

use crate::replies::{kept_reply, unknown};
use crate::session::Session;
use crate::stop::Stop;
use am_outside::{Folder, WriteFault};
use am_types::{Bytes, Hash, Text};
use std::alloc::Global;

// Keeps a file, and tells how long it is. The reply is made first, so that no file is kept where memory is wanting. A
// keep is one call, and no other follows.
#[tactic(auto, using(crate::proofs::FirstFault::no_call, crate::proofs::FirstFault::call_went, crate::proofs::FirstFault::call_failed))]
fn keep<F: Folder>(alloc: Global, name: &str, bytes: &[u8], files: &mut F) -> Result<Bytes, Stop>
    ensures kept { IfOk result (λ reply. F.files files.new ≡ with_file name.now bytes.now (F.files files.old)) }
    ensures told { IfOk result (λ reply. reply ≡ kept_reply (length bytes.now)) }
    ensures others { IsErrOf result Stop.File → SameBut name.now (F.files files.old) (F.files files.new) }
    ensures no_memory { IsErrOf result Stop.NoMemory → F.files files.new ≡ F.files files.old }
    ensures misses { F.misses files.old ≤ F.misses files.new }
    ensures faults { F.faults files.old ≤ F.faults files.new }
    ensures failed { IsErrOf result Stop.File → Rose (F.faults files.old) (F.faults files.new) }
    ensures ended { Ended (is_err_at is_file_stop result) (F.calls files.old) (F.calls files.new) }
{
    let reply = kept_reply(alloc, bytes.len())?;
    match files.keep(name, bytes) {
        Ok(()) => Ok(reply),
        Err(WriteFault::Failed) => Err(Stop::File),
        Err(WriteFault::NoMemory) => Err(Stop::NoMemory),
    }
}

/// The reply to save, and the file that it keeps.
#[tactic(auto, using(crate::proofs::FirstFault::no_call))]
pub fn saved<F: Folder>(
    alloc: Global,
    name: &Text,
    session: &mut Session,
    files: &mut F,
) -> Result<Bytes, Stop>
    ensures { Answered (Do (Save name.now)) session.old
        (seen (F.files files.old) (F.misses files.old) (F.faults files.old) (F.calls files.old)) result session.new
        (seen (F.files files.new) (F.misses files.new) (F.faults files.new) (F.calls files.new)) }
{
    let file = session.document(alloc)?;
    keep(alloc, name.as_str(), file.as_slice(), files)
}

/// The reply to saveall, and the file that it keeps.
#[tactic(auto, using(crate::proofs::FirstFault::no_call))]
pub fn saved_all<F: Folder>(
    alloc: Global,
    name: &Text,
    session: &mut Session,
    files: &mut F,
) -> Result<Bytes, Stop>
    ensures { Answered (Do (SaveAll name.now)) session.old
        (seen (F.files files.old) (F.misses files.old) (F.faults files.old) (F.calls files.old)) result session.new
        (seen (F.files files.new) (F.misses files.new) (F.faults files.new) (F.calls files.new)) }
{
    let file = session.whole_file(alloc)?;
    keep(alloc, name.as_str(), file.as_slice(), files)
}

/// The reply to export, and the file that it keeps.
#[tactic(auto, using(crate::proofs::FirstFault::no_call))]
pub fn exported<F: Folder>(
    alloc: Global,
    hash: &Hash,
    name: &Text,
    session: &mut Session,
    files: &mut F,
) -> Result<Bytes, Stop>
    ensures { Answered (Do (Export hash.now name.now)) session.old
        (seen (F.files files.old) (F.misses files.old) (F.faults files.old) (F.calls files.old)) result session.new
        (seen (F.files files.new) (F.misses files.new) (F.faults files.new) (F.calls files.new)) }
{
    match session.chunk(alloc, hash)? {
        Some(chunk) => keep(alloc, name.as_str(), chunk.as_slice(), files),
        None => Ok(unknown(alloc, hash)?),
    }
}
