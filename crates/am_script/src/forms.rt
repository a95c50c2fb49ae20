//! The words of the command line, and what they ask for.
ghost use Rattle.std.specs.Prelude.{◌≡◌, ◌∷◌, [], true, map, IfOk, Some, None, Err};
ghost use Rattle.std.specs.List.{list_all};
ghost use Rattle.am_script.specs.Words.{is_word};
ghost use Rattle.am_script.specs.Tables.{by_table};
ghost use Rattle.am_script.specs.Plans.{plans, plan_of, is_plain, if_read};
ghost use Rattle.am_script.specs.Forms.{SomeForm};
ghost use Rattle.am_script.specs.declared.planned.Plan.TheVariants.{Lines};
ghost use Rattle.am_script.specs.declared.fault.PlanFault.TheVariants.{BadWords};

use crate::command::Command;
use crate::fault::{LineFault, PlanFault};
use crate::parser::parses;
use crate::planned::Plan;
use crate::words::{alone, are_words, is_same, name_and_hashes, one_name, two_names};
use am_types::{List, Text};
use std::alloc::{AllocError, Global};

// The words, borrowed.
fn texts_of(alloc: Global, words: &[Text]) -> Result<Vec<&str>, AllocError>
    ensures { IfOk result (λ all. map (λ word. word.now) all.items ≡ words.now) }
{
    let mut all = Vec::new(alloc);
    for word in words {
        all.push(word.as_str())?;
    }
    Ok(all)
}

// The bytes of the words.
fn bytes_of(alloc: Global, words: &[Text]) -> Result<Vec<&[u8]>, AllocError>
    ensures { IfOk result (λ all. map (λ word. word.now) all.items ≡ words.now) }
{
    let mut all = Vec::new(alloc);
    for word in words {
        all.push(word.as_str().as_bytes())?;
    }
    Ok(all)
}

// Whether a word doesn't begin with a hyphen.
fn is_plain(word: &[u8]) -> bool
    ensures { result ≡ is_plain word.now }
{
    word.first() != Some(&b'-')
}

// Whether no word begins with a hyphen.
fn are_plain(words: &[&[u8]]) -> bool
    ensures { result ≡ list_all is_plain (map (λ word. word.now) words.now) }
{
    for word in words {
        if !is_plain(word) {
            return false;
        }
    }
    true
}

// The plan of one command.
fn one_line(alloc: Global, command: Command) -> Result<Plan, AllocError>
    ensures { IfOk result (λ plan. plan ≡ Lines (command ∷ [])) }
{
    let mut lines = List::new(alloc);
    lines.push(command)?;
    Ok(Plan::Lines(lines))
}

// The plan of two commands.
fn two_lines(alloc: Global, first: Command, second: Command) -> Result<Plan, AllocError>
    ensures { IfOk result (λ plan. plan ≡ Lines (first ∷ second ∷ [])) }
{
    let mut lines = List::new(alloc);
    lines.push(first)?;
    lines.push(second)?;
    Ok(Plan::Lines(lines))
}

// What words of one of the forms ask for, by the first of them.
#[tactic(auto, using(crate::proofs::FormLaws::last_form))]
fn by_form(
    alloc: Global,
    first: &[u8],
    more: &[&[u8]],
) -> Result<Result<Plan, LineFault>, AllocError>
    requires form { SomeForm (first.now ∷ map (λ word. word.now) more.now) }
    requires words { list_all is_word (map (λ word. word.now) more.now) ≡ true }
    ensures { IfOk result (λ asked. asked ≡ by_table plans (first.now ∷ map (λ word. word.now) more.now)) }
{
    if is_same(first, "run") {
        return Ok(alone(Plan::ReadInput, more));
    }
    if is_same(first, "show") {
        return match name_and_hashes(alloc, more)? {
            Ok((file, hashes)) => {
                let plan = two_lines(alloc, Command::Load(file), Command::Show(hashes))?;
                Ok(Ok(plan))
            }
            Err(fault) => Ok(Err(fault)),
        };
    }
    if is_same(first, "normalize") {
        return match two_names(alloc, more)? {
            Ok((source, target)) => {
                let plan = two_lines(alloc, Command::Load(source), Command::Save(target))?;
                Ok(Ok(plan))
            }
            Err(fault) => Ok(Err(fault)),
        };
    }
    let is_check = is_same(first, "check");
    match one_name(alloc, more)? {
        Ok(file) => {
            if is_check {
                return Ok(Ok(one_line(alloc, Command::Load(file))?));
            }
            let plan = two_lines(alloc, Command::Load(file), Command::History)?;
            Ok(Ok(plan))
        }
        Err(fault) => Ok(Err(fault)),
    }
}

// The plan of words of one of the forms.
fn named(alloc: Global, words: &[&[u8]]) -> Result<Option<Plan>, AllocError>
    requires form { SomeForm (map (λ word. word.now) words.now) }
    requires words { list_all is_word (map (λ word. word.now) words.now) ≡ true }
    ensures { IfOk result (λ plan. plan ≡ if_read (by_table plans (map (λ word. word.now) words.now))) }
{
    match words.split_first() {
        Some((first, more)) => Ok(by_form(alloc, first, more)?.ok()),
        None => Ok(None),
    }
}

/// What the words of the command line ask for. BadWords where they have no plan.
pub fn plan(alloc: Global, words: &[Text]) -> Result<Plan, PlanFault>
    ensures ok { IfOk result (λ plan. plan_of words.now ≡ Some plan) }
    ensures bad { result ≡ Err BadWords → plan_of words.now ≡ None }
{
    let texts = texts_of(alloc, words)?;
    let parts = bytes_of(alloc, words)?;
    if !are_words(&parts) {
        return Err(PlanFault::BadWords);
    }
    if !are_plain(&parts) {
        return Err(PlanFault::BadWords);
    }
    parses(alloc, &texts)?;
    match named(alloc, &parts)? {
        Some(plan) => Ok(plan),
        None => Err(PlanFault::BadWords),
    }
}
