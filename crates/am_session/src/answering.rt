//! One command: its reply, and what it does.
ghost use Rattle.std.specs.Prelude.{◌≡◌, ◌≤◌, Option, option_map, vec_items, IfOk, IsErrOf, IsNone};
ghost use Rattle.am_outside.specs.Counts.{Rose};
ghost use Rattle.am_outside.specs.Files.{Stands};
ghost use Rattle.am_session.specs.declared.request.Request.TheVariants.{Do};
ghost use Rattle.am_script.specs.declared.Command.TheVariants.{Frames, Apply, Load};
ghost use Rattle.am_session.specs.Request.{request_of};
ghost use Rattle.am_session.specs.Session.{Held};
ghost use Rattle.am_session.specs.Answered.{Answered, seen};
ghost use Rattle.am_session.specs.FirstFault.{Ended, is_err_at, is_file_stop};

use crate::apply::apply;
use crate::bench::bench;
use crate::heads::{list_heads, list_waiting};
use crate::listing::list_frames;
use crate::replies::refusal;
use crate::request::RequestRef;
use crate::saving::{exported, saved, saved_all};
use crate::session::Session;
use crate::stats::tell_stats;
use crate::stop::Stop;
use am_json::Form;
use am_outside::{FetchFault, Folder};
use am_script::Command;
use am_types::{Bytes, Text};
use std::alloc::Global;

// The bytes of a file, where it is there. A fetch is one call, and no other follows.
#[tactic(auto, using(crate::proofs::FirstFault::call_went, crate::proofs::FirstFault::call_failed))]
fn fetched<F: Folder>(alloc: Global, name: &str, files: &mut F) -> Result<Option<Vec<u8>>, Stop>
    ensures found { IfOk result (λ found. Stands (F.files files.old) name.now (option_map vec_items found)) }
    ensures same { F.files files.new ≡ F.files files.old }
    ensures absent { IfOk result (λ found. IsNone found → Rose (F.misses files.old) (F.misses files.new)) }
    ensures misses { F.misses files.old ≤ F.misses files.new }
    ensures faults { F.faults files.old ≤ F.faults files.new }
    ensures failed { IsErrOf result Stop.File → Rose (F.faults files.old) (F.faults files.new) }
    ensures ended { Ended (is_err_at is_file_stop result) (F.calls files.old) (F.calls files.new) }
{
    match files.fetch(alloc, name) {
        Ok(bytes) => Ok(Some(bytes)),
        Err(FetchFault::Absent) => Ok(None),
        Err(FetchFault::Failed) => Err(Stop::File),
        Err(FetchFault::NoMemory) => Err(Stop::NoMemory),
    }
}

// The reply to frames.
#[tactic(auto, using(crate::proofs::Present::listing_is_there))]
fn frames<F: Folder>(alloc: Global, name: &Text, files: &mut F) -> Result<Bytes, Stop>
    ensures { (held : Held) → Answered (Do (Frames name.now)) held
        (seen (F.files files.old) (F.misses files.old) (F.faults files.old) (F.calls files.old)) result held
        (seen (F.files files.new) (F.misses files.new) (F.faults files.new) (F.calls files.new)) }
{
    match fetched(alloc, name.as_str(), files)? {
        Some(bytes) => Ok(list_frames(alloc, &bytes)?),
        None => Ok(refusal(alloc, "absent")?),
    }
}

// The reply to apply, and what it does to the session.
#[tactic(auto, using(crate::proofs::Present::applied_is_there))]
fn applied<F: Folder>(
    alloc: Global,
    name: &Text,
    session: &mut Session,
    files: &mut F,
) -> Result<Bytes, Stop>
    ensures { Answered (Do (Apply name.now)) session.old
        (seen (F.files files.old) (F.misses files.old) (F.faults files.old) (F.calls files.old)) result session.new
        (seen (F.files files.new) (F.misses files.new) (F.faults files.new) (F.calls files.new)) }
{
    match fetched(alloc, name.as_str(), files)? {
        Some(bytes) => Ok(apply(alloc, session, &bytes, true)?),
        None => Ok(refusal(alloc, "absent")?),
    }
}

// The reply to load, and what it does to the session.
#[tactic(auto, using(crate::proofs::Present::applied_is_there))]
fn loaded<F: Folder>(
    alloc: Global,
    name: &Text,
    session: &mut Session,
    files: &mut F,
) -> Result<Bytes, Stop>
    ensures { Answered (Do (Load name.now)) session.old
        (seen (F.files files.old) (F.misses files.old) (F.faults files.old) (F.calls files.old)) result session.new
        (seen (F.files files.new) (F.misses files.new) (F.faults files.new) (F.calls files.new)) }
{
    match fetched(alloc, name.as_str(), files)? {
        Some(bytes) => Ok(apply(alloc, session, &bytes, false)?),
        None => Ok(refusal(alloc, "absent")?),
    }
}

/// The reply to what is asked for, and what it does to the session and to the files. `Stop::File` says that the folder
/// failed: then the files are as before, but for the one that this command keeps. After `Stop::NoMemory` all are as before.
/// Where there is no reply, what the session holds isn't said.
#[tactic(auto, using(crate::proofs::Present::shown_is_there, crate::proofs::Present::reading_is_there, crate::proofs::Present::stats_is_there, crate::proofs::Present::bench_is_there, crate::proofs::FirstFault::no_call))]
pub fn answer<F: Folder>(
    alloc: Global,
    request: RequestRef<'_>,
    session: &mut Session,
    files: &mut F,
) -> Result<Bytes, Stop>
    ensures { Answered (request_of request.entry) session.old
        (seen (F.files files.old) (F.misses files.old) (F.faults files.old) (F.calls files.old)) result session.new
        (seen (F.files files.new) (F.misses files.new) (F.faults files.new) (F.calls files.new)) }
{
    match request {
        RequestRef::LongLine => Ok(refusal(alloc, "line")?),
        RequestRef::Syntax => Ok(refusal(alloc, "syntax")?),
        RequestRef::BadHash => Ok(refusal(alloc, "hash")?),
        RequestRef::Do(Command::Frames(name)) => frames(alloc, name, files),
        RequestRef::Do(Command::Apply(name)) => applied(alloc, name, session, files),
        RequestRef::Do(Command::Load(name)) => loaded(alloc, name, session, files),
        RequestRef::Do(Command::Save(name)) => saved(alloc, name, session, files),
        RequestRef::Do(Command::SaveAll(name)) => saved_all(alloc, name, session, files),
        RequestRef::Do(Command::Heads) => Ok(list_heads(alloc, session)?),
        RequestRef::Do(Command::Waiting) => Ok(list_waiting(alloc, session)?),
        RequestRef::Do(Command::History) => Ok(session.history(alloc)?),
        RequestRef::Do(Command::Show(named)) => {
            Ok(session.show(alloc, Form::Winners, named.as_slice())?)
        }
        RequestRef::Do(Command::Conflicts(named)) => {
            Ok(session.show(alloc, Form::All, named.as_slice())?)
        }
        RequestRef::Do(Command::Audit(named)) => Ok(session.audit(alloc, named.as_slice())?),
        RequestRef::Do(Command::Export(hash, name)) => {
            exported(alloc, hash, name, session, files)
        }
        RequestRef::Do(Command::Stats) => Ok(tell_stats(alloc, session)?),
        RequestRef::Do(Command::Bench(count)) => Ok(bench(alloc, *count)?),
    }
}
