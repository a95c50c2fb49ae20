//! Runs at the limits of a script, of a line and of predecessors, and over every cut of a file.
use super::memory::{joined, outcome, replies_over};
use super::*;
use am_outside::MemoryFolder;
use std::process::Abort;
use std::test::Fail;

// Three changes by one author: 2,048 values of one key, then 2,048 more of it with all of these as predecessors, which is
// the most that there may be, then one value more.
const VALUES: &[(&str, u32)] = &[
    (
        "856f4a837820025c01a5100001aa01010000000615043402420356035780107003801001618010801001801013",
        1,
    ),
    ("01", 2048),
    ("801000", 1),
];

const OVER_ALL: &[(&str, u32)] = &[
    (
        "856f4a83e02420bc01ce70017820025c8a3158029aec89833d451b3b12c5d89da14ecfdeec338059b2be5bef01aa0281100000000815043402420356035780107004710573fd5f801001618010801001801013",
        1,
    ),
    ("01", 2048),
    ("8010801080808002008010", 1),
    ("017f8170ff0f", 2047),
    ("01", 1),
];

const ONE_MORE: &[(&str, u32)] = &[(
    "856f4a83776c9536014a01e02420bc1f1b40d49ca46bf9a144acfd4d8e6455fef761ef554ff4b4c1d5977301aa03812000000008150334014202560257017002710273037f0161017f017f13017f017f007f8020",
    1,
)];

fn put_values(alloc: Global, files: &mut MemoryFolder) -> Result<(), Fail> {
    files.put_file("values", &joined(alloc, VALUES)?)?;
    files.put_file("over_all", &joined(alloc, OVER_ALL)?)?;
    files.put_file("one_more", &joined(alloc, ONE_MORE)?)?;
    Ok(())
}

#[test]
fn predecessors_fill_up(rt: HostRuntime) -> Result<(), Fail> {
    let mut files = MemoryFolder::new(rt.alloc(), Vec::new(rt.alloc()));
    put_values(rt.alloc(), &mut files)?;
    replies_over(
        &rt,
        rt.alloc(),
        &mut files,
        "apply values\napply over_all\napply one_more\nheads\n",
        Status::Done,
        concat!(
            "ok added 1 waiting 0 rejected 0\n",
            "ok added 1 waiting 0 rejected 0\n",
            "ok added 0 waiting 0 rejected 1\n",
            "rejected 776c9536b4dc5d368072781f3b5478a431fb97344cf0db2780524a394b1f3162 full preds\n",
            "ok 1\ne02420bc1f1b40d49ca46bf9a144acfd4d8e6455fef761ef554ff4b4c1d59773\n",
        ),
    )
}

// So many times a byte, how the run ends, and what it writes.
const LENGTHS: &[(u8, usize, Status, &[u8])] = &[
    (b'x', 65_536, Status::SomeRefused, b"refused syntax\n"),
    (b'x', 65_537, Status::SomeRefused, b"refused line\n"),
    (b'\n', 16_777_216, Status::Done, b""),
    (b'\n', 16_777_217, Status::InputLong, b""),
];

#[test]
fn lines_and_scripts_at_their_lengths(rt: HostRuntime) -> Result<(), Fail> {
    let mut files = MemoryFolder::new(rt.alloc(), Vec::new(rt.alloc()));
    for &(byte, times, status, told) in LENGTHS {
        is_told(&rt, rt.alloc(), &mut files, byte, times, status, told)?;
    }
    Ok(())
}

fn is_told(
    rt: &impl Abort,
    alloc: Global,
    files: &mut MemoryFolder,
    byte: u8,
    times: usize,
    status: Status,
    told: &[u8],
) -> Result<(), Fail> {
    let (ended, out) = outcome(alloc, files, vec![in alloc; byte; times]?)?;
    assert_eq!(rt; ended, status, "at {times}");
    assert_eq!(rt; out.bytes(), told, "at {times}");
    Ok(())
}

// The file of one change. Each front part of it is cut off but the empty one, which has no chunk.
const WHOLE: &str =
    "856f4a83d99aa04d01200001aa0101000000061503340142025602570170027f0161017f017f13017f00";

fn is_truncated(
    rt: &impl Abort,
    alloc: Global,
    files: &mut MemoryFolder,
    cut: &[u8],
) -> Result<(), Fail> {
    files.put_file("cut", cut)?;
    if cut.is_empty() {
        let told = "ok added 0 waiting 0 rejected 0\nok 0\n";
        return replies_over(rt, alloc, files, "apply cut\nheads\n", Status::Done, told);
    }
    let told = "refused truncated chunk 1\nok 0\n";
    replies_over(
        rt,
        alloc,
        files,
        "apply cut\nheads\n",
        Status::SomeRefused,
        told,
    )
}

fn are_truncated(
    rt: &impl Abort,
    alloc: Global,
    files: &mut MemoryFolder,
    whole: &[u8],
) -> Result<(), Fail> {
    for len in 0..whole.len() {
        is_truncated(rt, alloc, files, &whole[..len])?;
    }
    Ok(())
}

#[test]
fn every_cut_is_truncated(rt: HostRuntime) -> Result<(), Fail> {
    let mut files = MemoryFolder::new(rt.alloc(), Vec::new(rt.alloc()));
    let whole = hex::decode(rt.alloc(), WHOLE)?;
    are_truncated(&rt, rt.alloc(), &mut files, &whole)
}
