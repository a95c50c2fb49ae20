//! The forms of the command line.
use super::memory::{folder, outcome_of};
use super::*;
use std::process::Abort;
use std::test::Fail;

// Words, the status at the end, and what is written.
struct Case {
    words: &'static [&'static str],
    status: Status,
    replies: &'static str,
}

const CASES: &[Case] = &[
    Case {
        words: &["show", "A1"],
        status: Status::Done,
        replies: "ok added 1 waiting 0 rejected 0\n{\"a\":1}\n",
    },
    Case {
        words: &["check", "A1"],
        status: Status::Done,
        replies: "ok added 1 waiting 0 rejected 0\n",
    },
    Case {
        words: &["history", "A1"],
        status: Status::Done,
        replies: concat!(
            "ok added 1 waiting 0 rejected 0\nok 1\n",
            "d99aa04d2627b06462ea181e063a2e07e16255c088d1fe97ecf9c964cfa6ce32 aa 1 1 1 0 \"\"\n",
        ),
    },
    Case {
        words: &["normalize", "A1", "kept"],
        status: Status::Done,
        replies: "ok added 1 waiting 0 rejected 0\nok 105\n",
    },
    Case {
        words: &["normalize", "A1-sum", "refused"],
        status: Status::SomeRefused,
        replies: "refused bad-checksum chunk 1\n",
    },
    Case {
        words: &["show", "nosuch"],
        status: Status::SomeRefused,
        replies: "refused absent\n",
    },
    Case {
        words: &[],
        status: Status::BadWords,
        replies: "",
    },
    Case {
        words: &["run", "run"],
        status: Status::BadWords,
        replies: "",
    },
    Case {
        words: &["show", "A1", "-1"],
        status: Status::BadWords,
        replies: "",
    },
];

fn is_carried_out(rt: &impl Abort, alloc: Global, case: &Case) -> Result<(), Fail> {
    let mut files = folder(alloc, Vec::new(alloc))?;
    let (status, out) = outcome_of(alloc, case.words, &mut files, b"heads\n".to_vec(alloc)?)?;
    assert_eq!(rt; status, case.status);
    assert_eq!(rt; out.bytes(), case.replies.as_bytes());
    assert!(rt; files.file("refused").is_none());
    Ok(())
}

#[test]
fn words_are_carried_out(rt: HostRuntime) -> Result<(), Fail> {
    for case in CASES {
        is_carried_out(&rt, rt.alloc(), case)?;
    }
    Ok(())
}
