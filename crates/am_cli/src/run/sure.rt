//! Runs over an input, a folder and an output that never fail.
use super::chunks::FILES;
use super::memory::{folder, replies_over, words_of};
use super::*;
use am_outside::{MemoryFolder, SureFolder, SureSink, SureSource};
use std::process::Abort;
use std::test::Fail;

// Scripts, one after another over one folder, and their replies.
const RUNS: &[(&str, &str)] = &[
    (
        "apply A1\nsave kept\n",
        "ok added 1 waiting 0 rejected 0\nok 105\n",
    ),
    (
        "load kept\nexport d99aa04d2627b06462ea181e063a2e07e16255c088d1fe97ecf9c964cfa6ce32 again\n",
        "ok added 1 waiting 0 rejected 0\nok 42\n",
    ),
];

fn put_all(alloc: Global, files: &mut SureFolder) -> Result<(), Fail> {
    for (name, digits) in FILES {
        files.put_file(*name, &hex::decode(alloc, *digits)?)?;
    }
    Ok(())
}

fn replies_surely(
    rt: &impl Abort,
    alloc: Global,
    files: &mut SureFolder,
    script: &str,
    replies: &str,
) -> Result<(), Fail> {
    let words = words_of(alloc, &["run"])?;
    let mut input = SureSource::new(script.as_bytes().to_vec(alloc)?);
    let mut out = SureSink::new(alloc);
    let status = run(alloc, &words, &mut input, files, &mut out);
    assert_eq!(rt; status, Status::Done);
    assert_eq!(rt; out.bytes(), replies.as_bytes());
    Ok(())
}

fn both_reply(
    rt: &impl Abort,
    alloc: Global,
    files: &mut SureFolder,
    other: &mut MemoryFolder,
) -> Result<(), Fail> {
    for &(script, replies) in RUNS {
        replies_surely(rt, alloc, files, script, replies)?;
        replies_over(rt, alloc, other, script, Status::Done, replies)?;
    }
    Ok(())
}

fn are_alike(rt: &impl Abort, files: &SureFolder, other: &MemoryFolder) {
    for &name in &["kept", "again"] {
        assert_eq!(rt; files.file(name), other.file(name), "at {name}");
    }
    assert_eq!(rt; files.file("again"), files.file("A1"));
}

#[test]
fn replies_and_files_are_those_of_other_versions(rt: HostRuntime) -> Result<(), Fail> {
    let mut other = folder(rt.alloc(), Vec::new(rt.alloc()))?;
    let mut files = SureFolder::new(rt.alloc());
    put_all(rt.alloc(), &mut files)?;
    both_reply(&rt, rt.alloc(), &mut files, &mut other)?;
    are_alike(&rt, &files, &other);
    Ok(())
}
