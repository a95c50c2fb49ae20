//! The top call.
ghost use Rattle.std.specs.Prelude.{◌≡◌, ◌≢◌, ◌≤◌, ◌<◌, ◌+◌, ◌↔◌, ◌⊎◌, List as AList, length, IfOk, IfSome, IsErrOf, Some, None, Bool};
ghost use Rattle.am_outside.specs.Counts.{Rose, RoseBy};
ghost use Rattle.am_session.specs.declared.Request.{Request as ARequest};
ghost use Rattle.am_session.specs.Session.{nothing_held};
ghost use Rattle.am_session.specs.FirstFault.{Ended, is_err_at};
ghost use Rattle.am_script.specs.Plans.{plan_of};
ghost use Rattle.am_cli.specs.Faults.{is_failed_read, is_input_fault, is_file_fault, is_output_fault};
ghost use Rattle.am_cli.specs.Top.{input_of, outside, stops_of, Asks, Finished, Broken, IsBefore, some_is_refused, halt_of};

use crate::carry::carry_out;
use crate::halt::Halt;
use crate::input::{LONGEST, Unread, read_all};
use crate::requests::Requests;
use crate::script::read_script;
use am_outside::{Folder, Sink, Source};
use am_script::{Plan, PlanFault, plan};
use am_session::{Request, Session};
use am_types::{List, Text};
use std::alloc::{AllocError, Global};

/// How a run ended. After `FileFault`, `OutputFault` and `NoMemory` some first commands of the script were carried out,
/// perhaps none. Of the commands behind them the next one alone may have been begun.
#[derive(Clone, Copy, Debug, PartialEq, Eq)]
pub enum Status {
    /// All commands were carried out, all replies written, and none refuses.
    Done,
    /// All commands were carried out, all replies written, and at least one refuses.
    SomeRefused,
    /// The words of the command line have no plan. Nothing was read, written or kept.
    BadWords,
    /// The input failed. Nothing was written or kept.
    InputFault,
    /// The folder failed at the next command. All replies so far are written; the file that this command keeps, if it
    /// keeps one, may hold anything.
    FileFault,
    /// The output failed at the last of the replies, of which a front part may be written.
    OutputFault,
    /// Out of memory. Of the last of the replies a front part may be all that is written.
    NoMemory,
    /// The script is longer than 16,777,216 bytes. Nothing was written or kept.
    InputLong,
}

impl Status {
    ghost use Rattle.am_cli.specs.Top.{exit_status};

    /// The exit status of the program.
    pub fn number(self) -> u8
        ensures exit { result ≡ exit_status self }
    {
        match self {
            Status::Done => 0,
            Status::SomeRefused => 1,
            Status::BadWords => 2,
            Status::InputFault => 3,
            Status::FileFault => 4,
            Status::OutputFault => 5,
            Status::NoMemory => 6,
            Status::InputLong => 7,
        }
    }
}

// A session that holds nothing, on the heap.
fn boxed_session(alloc: Global) -> Result<Box<Session>, AllocError>
    ensures { IfOk result (λ session. session.value ≡ nothing_held) }
{
    let session = Session::new(alloc)?;
    let boxed = Box::new(alloc, session)?;
    Ok(boxed)
}

// Carries out commands from the first state.
fn carry_all<R: Requests, F: Folder, O: Sink>(
    alloc: Global,
    stops: bool,
    asked: &R,
    files: &mut F,
    out: &mut O,
) -> Status
    ensures done { (refused : Bool) → some_is_refused result ≡ Some refused → Finished stops (R.asked asked.now) refused
        (outside (F.files files.old) (F.misses files.old) (O.written out.old)) (outside (F.files files.new) (F.misses files.new) (O.written out.new)) }
    ensures stopped { IfSome (halt_of result) (λ halt. Broken stops (R.asked asked.now) halt
        (outside (F.files files.old) (F.misses files.old) (O.written out.old)) (outside (F.files files.new) (F.misses files.new) (O.written out.new))) }
    ensures within { IsBefore result → ⊥ }
    ensures file { result ≡ Status.FileFault → Rose (F.faults files.old) (F.faults files.new) }
    ensures output { result ≡ Status.OutputFault → Rose (O.faults out.old) (O.faults out.new) }
    ensures file_faults { F.faults files.old ≤ F.faults files.new }
    ensures output_faults { O.faults out.old ≤ O.faults out.new }
    ensures folder_ended { Ended (is_file_fault result) (F.calls files.old) (F.calls files.new) }
    ensures output_ended { Ended (is_output_fault result) (O.calls out.old) (O.calls out.new) }
{
    let Ok(mut session) = boxed_session(alloc) else {
        return Status::NoMemory;
    };
    match carry_out(alloc, stops, asked, &mut session, files, out) {
        Ok(false) => Status::Done,
        Ok(true) => Status::SomeRefused,
        Err(Halt::File) => Status::FileFault,
        Err(Halt::Output) => Status::OutputFault,
        Err(Halt::NoMemory) => Status::NoMemory,
    }
}

// What the input's lines ask for.
fn asked_of_input<I: Source>(alloc: Global, input: &mut I) -> Result<List<Request>, Unread>
    ensures asks { IfOk result (λ asked. Asks Plan.ReadInput asked (input_of (I.left input.old) (I.taken input.old)) (input_of (I.left input.new) (I.taken input.new))) }
    ensures bound { I.taken input.new ≤ I.taken input.old + (LONGEST + 1) }
    ensures failed { IsErrOf result Unread.Failed → Rose (I.faults input.old) (I.faults input.new) }
    ensures long { IsErrOf result Unread.Long → RoseBy (LONGEST + 1) (I.taken input.old) (I.taken input.new) }
    ensures more { IsErrOf result Unread.Long → IfSome (I.left input.old) (λ all. LONGEST < length all) }
    ensures ended { Ended (is_err_at is_failed_read result) (I.calls input.old) (I.calls input.new) }
{
    let script = read_all(alloc, input)?;
    Ok(read_script(alloc, &script)?)
}

/// Does all that the program does with its words, its input, its folder and its output. The words don't hold the
/// program's name.
pub fn run<I: Source, F: Folder, O: Sink>(
    alloc: Global,
    words: &[Text],
    input: &mut I,
    files: &mut F,
    out: &mut O,
) -> Status
    // Every command was carried out and every reply written, and a reply refuses exactly at SomeRefused.
    ensures done { (refused : Bool) → some_is_refused result ≡ Some refused → (plan : Plan) × (asked : AList ARequest)
        × (plan_of words.now ≡ Some plan) × Asks plan asked (input_of (I.left input.old) (I.taken input.old)) (input_of (I.left input.new) (I.taken input.new))
        × Finished (stops_of plan) asked refused
        (outside (F.files files.old) (F.misses files.old) (O.written out.old)) (outside (F.files files.new) (F.misses files.new) (O.written out.new)) }
    // A fault came within the commands, or memory was wanting before the first of them and nothing was done.
    ensures stopped { IfSome (halt_of result) (λ halt.
        ((halt ≡ Halt.NoMemory) × (out.new ≡ out.old) × (files.new ≡ files.old))
        ⊎ ((plan : Plan) × (asked : AList ARequest)
        × (plan_of words.now ≡ Some plan) × Asks plan asked (input_of (I.left input.old) (I.taken input.old)) (input_of (I.left input.new) (I.taken input.new))
        × Broken (stops_of plan) asked halt
        (outside (F.files files.old) (F.misses files.old) (O.written out.old)) (outside (F.files files.new) (F.misses files.new) (O.written out.new)))) }
    ensures unwritten { IsBefore result → out.new ≡ out.old }
    ensures unkept { IsBefore result → files.new ≡ files.old }

    ensures bad { result ≡ Status.BadWords → plan_of words.now ≡ None }
    ensures unplanned { plan_of words.now ≡ None → (result ≡ Status.BadWords) ⊎ (result ≡ Status.NoMemory) }
    ensures unread { (plan_of words.now ≢ Some Plan.ReadInput) → input.new ≡ input.old }
    ensures bound { I.taken input.new ≤ I.taken input.old + (LONGEST + 1) }

    // Each status that tells of a fault has its cause.
    ensures input { result ≡ Status.InputFault → Rose (I.faults input.old) (I.faults input.new) }
    ensures file { result ≡ Status.FileFault → Rose (F.faults files.old) (F.faults files.new) }
    ensures output { result ≡ Status.OutputFault → Rose (O.faults out.old) (O.faults out.new) }
    ensures long { result ≡ Status.InputLong → RoseBy (LONGEST + 1) (I.taken input.old) (I.taken input.new) }
    ensures more { result ≡ Status.InputLong → IfSome (I.left input.old) (λ all. LONGEST < length all) }

    // The first fault ends the run: where an object tells its calls, none of them in this run fails but the last, and that
    // one exactly at the status that tells of this object's fault.
    ensures input_ended { Ended (is_input_fault result) (I.calls input.old) (I.calls input.new) }
    ensures folder_ended { Ended (is_file_fault result) (F.calls files.old) (F.calls files.new) }
    ensures output_ended { Ended (is_output_fault result) (O.calls out.old) (O.calls out.new) }
{
    match plan(alloc, words) {
        Err(PlanFault::BadWords) => Status::BadWords,
        Err(PlanFault::NoMemory) => Status::NoMemory,
        Ok(Plan::Lines(commands)) => carry_all(alloc, true, &commands, files, out),
        Ok(Plan::ReadInput) => match asked_of_input(alloc, input) {
            Ok(asked) => carry_all(alloc, false, &asked, files, out),
            Err(Unread::Failed) => Status::InputFault,
            Err(Unread::Long) => Status::InputLong,
            Err(Unread::NoMemory) => Status::NoMemory,
        },
    }
}

#[cfg(test)]
mod chunks;
#[cfg(test)]
mod failing;
#[cfg(test)]
mod forms;
#[cfg(test)]
mod letters;
#[cfg(test)]
mod limits;
#[cfg(test)]
mod memory;
#[cfg(test)]
mod notes;
#[cfg(test)]
mod orders;
#[cfg(test)]
mod saves;
#[cfg(test)]
mod scripts;
#[cfg(test)]
mod sure;
#[cfg(test)]
mod tests;
