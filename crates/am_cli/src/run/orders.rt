//! Files of one change each, delivered in every order.
use super::memory::{folder, outcome};
use super::*;
use am_outside::MemoryFolder;
use std::alloc::AllocError;
use std::process::Abort;
use std::test::Fail;

// Changes that build on each other or stand beside each other, and in how many orders they can come.
const GROUPS: &[(&[&str], usize)] = &[
    (&["A1", "A2", "B1"], 6),
    (&["T1", "T2", "T3"], 6),
    (&["K1", "K2", "K3", "K4"], 24),
];

// Appends a command over a file.
fn push_command(script: &mut String, command: &str, name: &str) -> Result<(), AllocError> {
    script.push_str(command)?;
    script.push_str(name)?;
    script.push_str("\n")
}

// Appends the deliveries of the files in the order of this number, of the first one twice.
fn push_order(script: &mut String, left: &mut Vec<&str>, number: usize) -> Result<(), AllocError> {
    let mut rest = number;
    let most = left.len();
    for count in (1..=most).rev() {
        let place = rest % count;
        rest /= count;
        if place < left.len() {
            let name = left.remove(place);
            push_command(script, "apply ", name)?;
            if count == most {
                push_command(script, "apply ", name)?;
            }
        }
    }
    Ok(())
}

// A script that delivers the files in the order of this number, the first one twice, and keeps the document.
fn script(alloc: Global, names: &[&str], number: usize) -> Result<Vec<u8>, AllocError> {
    let mut left = names.to_vec(alloc)?;
    let mut script = String::new(alloc);
    push_order(&mut script, &mut left, number)?;
    push_command(&mut script, "save ", "kept")?;
    Ok(script.into_bytes())
}

fn deliver(
    alloc: Global,
    files: &mut MemoryFolder,
    names: &[&str],
    number: usize,
) -> Result<Status, Fail> {
    let script = script(alloc, names, number)?;
    let (status, _) = outcome(alloc, files, script)?;
    Ok(status)
}

// The document that is kept where the files come in this order.
fn kept(rt: &impl Abort, alloc: Global, names: &[&str], number: usize) -> Result<Vec<u8>, Fail> {
    let mut files = folder(alloc, Vec::new(alloc))?;
    let status = deliver(alloc, &mut files, names, number)?;
    assert_eq!(rt; status, Status::Done);
    match files.file("kept") {
        Some(bytes) => Ok(bytes.to_vec(alloc)?),
        None => Err(Fail::from("no document is kept")),
    }
}

fn is_kept(
    rt: &impl Abort,
    alloc: Global,
    names: &[&str],
    number: usize,
    first: &[u8],
) -> Result<(), Fail> {
    let other = kept(rt, alloc, names, number)?;
    assert!(rt; other.as_slice() == first, "at order {number}");
    Ok(())
}

fn are_kept(rt: &impl Abort, alloc: Global, names: &[&str], orders: usize) -> Result<(), Fail> {
    let first = kept(rt, alloc, names, 0)?;
    for number in 1..orders {
        is_kept(rt, alloc, names, number, &first)?;
    }
    Ok(())
}

#[test]
fn each_order_leaves_the_same_document(rt: HostRuntime) -> Result<(), Fail> {
    for &(names, orders) in GROUPS {
        are_kept(&rt, rt.alloc(), names, orders)?;
    }
    Ok(())
}
