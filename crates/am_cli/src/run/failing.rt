//! Runs of which one call of the input, of the folder or of the output fails.
use super::memory::{folder, words_of};
use super::*;
use am_outside::{MemoryFolder, MemorySink, MemorySource};
use std::process::Abort;
use std::test::Fail;

// No call has this number.
const NEVER: u64 = u64::MAX;

// The most that a read gives where a script is read at once.
const WHOLE: usize = 4096;

// Keeps a file after a delivery.
const KEEPS: &str = "apply A1\nsave kept\nshow\n";

// Reads a file and the store.
const READS: &str =
    "frames A1\napply A1\nshow\nshow d99aa04d2627b06462ea181e063a2e07e16255c088d1fe97ecf9c964cfa6ce32\nstats\n";

struct Case {
    script: &'static str,
    // How many bytes a read gives at most.
    most: usize,
    // The call of the input, of the folder and of the output that fails.
    failing: [u64; 3],
    written: &'static str,
    // How long the file is that is kept.
    kept: Option<usize>,
    status: Status,
}

// Keeps a file before a delivery.
const BEGINS: &str = "save kept\napply A1\n";

// Lists two files, of which only the first is there.
const LISTS: &str = "frames A1\nframes nosuch\n";

const LISTED: &str =
    "ok 1\nchange 32 d99aa04d2627b06462ea181e063a2e07e16255c088d1fe97ecf9c964cfa6ce32\n";

const CASES: &[Case] = &[
    Case {
        script: KEEPS,
        most: WHOLE,
        failing: [0, NEVER, NEVER],
        written: "",
        kept: None,
        status: Status::InputFault,
    },
    Case {
        script: KEEPS,
        most: 1,
        failing: [3, NEVER, NEVER],
        written: "",
        kept: None,
        status: Status::InputFault,
    },
    Case {
        script: KEEPS,
        most: WHOLE,
        failing: [NEVER, 0, NEVER],
        written: "",
        kept: None,
        status: Status::FileFault,
    },
    Case {
        script: KEEPS,
        most: WHOLE,
        failing: [NEVER, 1, NEVER],
        written: "ok added 1 waiting 0 rejected 0\n",
        kept: None,
        status: Status::FileFault,
    },
    Case {
        script: KEEPS,
        most: WHOLE,
        failing: [NEVER, NEVER, 0],
        written: "",
        kept: None,
        status: Status::OutputFault,
    },
    Case {
        script: KEEPS,
        most: WHOLE,
        failing: [NEVER, NEVER, 1],
        written: "ok added 1 waiting 0 rejected 0\n",
        kept: Some(105),
        status: Status::OutputFault,
    },
    Case {
        script: KEEPS,
        most: WHOLE,
        failing: [NEVER, NEVER, 2],
        written: "ok added 1 waiting 0 rejected 0\nok 105\n",
        kept: Some(105),
        status: Status::OutputFault,
    },
    Case {
        script: KEEPS,
        most: 1,
        failing: [NEVER, NEVER, NEVER],
        written: "ok added 1 waiting 0 rejected 0\nok 105\n{\"a\":1}\n",
        kept: Some(105),
        status: Status::Done,
    },
    Case {
        script: BEGINS,
        most: WHOLE,
        failing: [NEVER, 0, NEVER],
        written: "",
        kept: None,
        status: Status::FileFault,
    },
    Case {
        script: BEGINS,
        most: WHOLE,
        failing: [NEVER, 1, NEVER],
        written: "ok 14\n",
        kept: Some(14),
        status: Status::FileFault,
    },
    Case {
        script: READS,
        most: WHOLE,
        failing: [NEVER, 0, NEVER],
        written: "",
        kept: None,
        status: Status::FileFault,
    },
    Case {
        script: READS,
        most: WHOLE,
        failing: [0, NEVER, NEVER],
        written: "",
        kept: None,
        status: Status::InputFault,
    },
    Case {
        script: READS,
        most: WHOLE,
        failing: [NEVER, NEVER, 1],
        written: LISTED,
        kept: None,
        status: Status::OutputFault,
    },
    Case {
        script: LISTS,
        most: WHOLE,
        failing: [0, NEVER, NEVER],
        written: "",
        kept: None,
        status: Status::InputFault,
    },
    Case {
        script: LISTS,
        most: WHOLE,
        failing: [NEVER, 0, NEVER],
        written: "",
        kept: None,
        status: Status::FileFault,
    },
    Case {
        script: LISTS,
        most: WHOLE,
        failing: [NEVER, 1, NEVER],
        written: LISTED,
        kept: None,
        status: Status::FileFault,
    },
    Case {
        script: LISTS,
        most: WHOLE,
        failing: [NEVER, NEVER, 1],
        written: LISTED,
        kept: None,
        status: Status::OutputFault,
    },
];

// Ends the run of a case, whose input, folder and output these are.
fn ends(
    rt: &impl Abort,
    alloc: Global,
    case: &Case,
    input: &mut MemorySource,
    files: &mut MemoryFolder,
    out: &mut MemorySink,
) -> Result<(), Fail> {
    let words = words_of(alloc, &["run"])?;
    let status = run(alloc, &words, input, files, out);
    assert_eq!(rt; status, case.status);
    assert_eq!(rt; out.bytes(), case.written.as_bytes());
    let kept = files.file("kept").map(|bytes| bytes.len());
    assert_eq!(rt; kept, case.kept);
    Ok(())
}

fn ends_as_told(rt: &impl Abort, alloc: Global, case: &Case) -> Result<(), Fail> {
    let [read, file, write] = case.failing;
    let script = case.script.as_bytes().to_vec(alloc)?;
    let mut files = folder(alloc, vec![in alloc; file]?)?;
    let mut input = MemorySource::new(script, case.most.max(1), vec![in alloc; read]?);
    let mut out = MemorySink::new(alloc, vec![in alloc; write]?);
    ends(rt, alloc, case, &mut input, &mut files, &mut out)
}

#[test]
fn a_failing_call_ends_the_run(rt: HostRuntime) -> Result<(), Fail> {
    for case in CASES {
        ends_as_told(&rt, rt.alloc(), case)?;
    }
    Ok(())
}
