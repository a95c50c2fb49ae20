//! A line of a script, and what it asks for.
ghost use Rattle.std.specs.Prelude.{◌≡◌, ◌⊎◌, ◌∷◌, true, map, IfOk, Err};
ghost use Rattle.std.specs.List.{list_all};
ghost use Rattle.am_script.specs.Words.{is_word};
ghost use Rattle.am_script.specs.Commands.{parts, by_words, command_of, read_line};
ghost use Rattle.am_script.specs.declared.fault.LineFault.TheVariants.{NoMemory};

use crate::command::Command;
use crate::fault::LineFault;
use crate::words::{all_hashes, alone, are_words, hash_and_name, is_same, one_name, one_number};
use std::alloc::{AllocError, Global};

// The longest line, in bytes.
const LONGEST_LINE: usize = 65_536;

// What stands between the spaces of a line.
fn parts_of(alloc: Global, line: &[u8]) -> Result<Vec<&[u8]>, AllocError>
    ensures { IfOk result (λ all. map (λ part. part.now) all.items ≡ parts line.now) }
{
    line.split(|byte| *byte == b' ').collect(alloc)
}

// What the words of a line ask for, by the first of them.
fn by_words(
    alloc: Global,
    first: &[u8],
    more: &[&[u8]],
) -> Result<Result<Command, LineFault>, AllocError>
    requires { list_all is_word (map (λ word. word.now) more.now) ≡ true }
    ensures { IfOk result (λ asked. asked ≡ by_words (first.now ∷ map (λ word. word.now) more.now)) }
{
    if is_same(first, "frames") {
        return Ok(one_name(alloc, more)?.map(Command::Frames));
    }
    if is_same(first, "apply") {
        return Ok(one_name(alloc, more)?.map(Command::Apply));
    }
    if is_same(first, "load") {
        return Ok(one_name(alloc, more)?.map(Command::Load));
    }
    if is_same(first, "save") {
        return Ok(one_name(alloc, more)?.map(Command::Save));
    }
    if is_same(first, "saveall") {
        return Ok(one_name(alloc, more)?.map(Command::SaveAll));
    }
    if is_same(first, "heads") {
        return Ok(alone(Command::Heads, more));
    }
    if is_same(first, "waiting") {
        return Ok(alone(Command::Waiting, more));
    }
    if is_same(first, "history") {
        return Ok(alone(Command::History, more));
    }
    if is_same(first, "show") {
        return Ok(all_hashes(alloc, more)?.map(Command::Show));
    }
    if is_same(first, "conflicts") {
        return Ok(all_hashes(alloc, more)?.map(Command::Conflicts));
    }
    if is_same(first, "audit") {
        return Ok(all_hashes(alloc, more)?.map(Command::Audit));
    }
    if is_same(first, "export") {
        return Ok(hash_and_name(alloc, more)?.map(|(hash, name)| Command::Export(hash, name)));
    }
    if is_same(first, "stats") {
        return Ok(alone(Command::Stats, more));
    }
    if is_same(first, "bench") {
        return Ok(one_number(more).map(Command::Bench));
    }
    Ok(Err(LineFault::Syntax))
}

// What a line that isn't empty asks for.
fn command_of(alloc: Global, line: &[u8]) -> Result<Result<Command, LineFault>, AllocError>
    ensures { IfOk result (λ asked. asked ≡ command_of line.now) }
{
    let parts = parts_of(alloc, line)?;
    if !are_words(&parts) {
        return Ok(Err(LineFault::Syntax));
    }
    match parts.split_first() {
        Some((first, more)) => by_words(alloc, first, more),
        None => Ok(Err(LineFault::Syntax)),
    }
}

/// What a line of a script asks for, without its newline. An empty line asks for nothing. A line that is too long is told
/// before one that has the form of no command, and this before a word that is no hash.
pub fn read_line(alloc: Global, line: &[u8]) -> Result<Option<Command>, LineFault>
    ensures read { (result ≡ Err NoMemory) ⊎ (result ≡ read_line line.now) }
{
    if line.is_empty() {
        return Ok(None);
    }
    if line.len() > LONGEST_LINE {
        return Err(LineFault::TooLong);
    }
    let command = command_of(alloc, line)??;
    Ok(Some(command))
}
