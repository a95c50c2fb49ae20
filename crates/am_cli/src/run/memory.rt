//! For tests: a run of a script over memory, and files put together from pieces.
use super::chunks::FILES;
use super::*;
use am_outside::{MemoryFolder, MemorySink, MemorySource};
use std::process::Abort;
use std::test::Fail;

/// How a run of the script over these files ends, and what it writes.
pub fn outcome(
    alloc: Global,
    files: &mut MemoryFolder,
    script: Vec<u8>,
) -> Result<(Status, MemorySink), Fail> {
    outcome_of(alloc, &["run"], files, script)
}

/// How a run of these words ends, with the script as its input, and what it writes.
pub fn outcome_of(
    alloc: Global,
    words: &[&str],
    files: &mut MemoryFolder,
    script: Vec<u8>,
) -> Result<(Status, MemorySink), Fail> {
    let all = words_of(alloc, words)?;
    let mut input = MemorySource::new(script, 4096, Vec::new(alloc));
    let mut out = MemorySink::new(alloc, Vec::new(alloc));
    let status = run(alloc, &all, &mut input, files, &mut out);
    Ok((status, out))
}

/// Words of the command line.
pub fn words_of(alloc: Global, words: &[&str]) -> Result<Vec<Text>, Fail> {
    let mut all = Vec::new(alloc);
    for word in words {
        let mut text = Text::new(alloc);
        text.push_str(word)?;
        all.push(text)?;
    }
    Ok(all)
}

/// A run of the script over these files ends so, and these are its replies.
pub fn replies_over(
    rt: &impl Abort,
    alloc: Global,
    files: &mut MemoryFolder,
    script: &str,
    status: Status,
    replies: &str,
) -> Result<(), Fail> {
    let (ended, out) = outcome(alloc, files, script.as_bytes().to_vec(alloc)?)?;
    assert_eq!(rt; std::str::from_utf8(out.bytes())?, replies, "at {script}");
    assert_eq!(rt; ended, status, "at {script}");
    Ok(())
}

/// The same over all files.
pub fn replies(
    rt: &impl Abort,
    alloc: Global,
    script: &str,
    status: Status,
    replies: &str,
) -> Result<(), Fail> {
    let mut files = folder(alloc, Vec::new(alloc))?;
    replies_over(rt, alloc, &mut files, script, status, replies)
}

/// A folder with all the files, of which these calls fail.
pub fn folder(alloc: Global, failing: Vec<u64>) -> Result<MemoryFolder, Fail> {
    let mut files = MemoryFolder::new(alloc, failing);
    put_all(alloc, &mut files)?;
    Ok(files)
}

fn put_all(alloc: Global, files: &mut MemoryFolder) -> Result<(), Fail> {
    for (name, digits) in FILES {
        files.put_file(*name, &hex::decode(alloc, *digits)?)?;
    }
    Ok(())
}

/// These pieces, in hexadecimal, each so many times.
pub fn joined(alloc: Global, pieces: &[(&str, u32)]) -> Result<Vec<u8>, Fail> {
    let mut bytes = Vec::new(alloc);
    for (digits, times) in pieces {
        let piece = hex::decode(alloc, *digits)?;
        for _ in 0..*times {
            bytes.extend_from_slice(&piece)?;
        }
    }
    Ok(bytes)
}
