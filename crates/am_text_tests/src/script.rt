//! What lines and words ask for, at their bounds.
use am_script::{Command, LineFault, Plan, PlanFault, plan, read_line};
use am_types::{List, Text};
use std::alloc::Global;
use std::process::Abort;
use std::test::Fail;

const A_HASH: &str = "0000000000000000000000000000000000000000000000000000000000ABcdef";

fn words(rt: &HostRuntime, texts: &[&str]) -> Result<List<Text>, Fail> {
    let mut list = List::new(rt.alloc());
    for text in texts {
        let mut word = Text::new(rt.alloc());
        word.push_str(text)?;
        list.push(word)?;
    }
    Ok(list)
}

// The word of a command, the file that it names, and its number or how many hashes it has.
fn parts(command: &Command) -> (&'static str, &str, u64) {
    match command {
        Command::Frames(name) => ("frames", name.as_str(), 0),
        Command::Load(name) => ("load", name.as_str(), 0),
        Command::Save(name) => ("save", name.as_str(), 0),
        Command::Export(_hash, name) => ("export", name.as_str(), 1),
        Command::Show(hashes) => ("show", "", hashes.len() as u64),
        Command::Audit(hashes) => ("audit", "", hashes.len() as u64),
        Command::Heads => ("heads", "", 0),
        Command::History => ("history", "", 0),
        Command::Stats => ("stats", "", 0),
        Command::Bench(count) => ("bench", "", *count),
        _ => ("another", "", 0),
    }
}

fn is_command(rt: &impl Abort, alloc: Global, line: &[u8], want: (&str, &str, u64)) {
    match read_line(alloc, line) {
        Ok(Some(command)) => assert_eq!(rt; parts(&command), want),
        _ => assert!(rt; false, "{want:?}"),
    }
}

// Lines, and the parts of their commands.
const LINES: &[(&str, (&str, &str, u64))] = &[
    ("frames A1", ("frames", "A1", 0)),
    ("show", ("show", "", 0)),
    ("heads", ("heads", "", 0)),
    ("history", ("history", "", 0)),
    ("stats", ("stats", "", 0)),
    ("audit", ("audit", "", 0)),
    ("bench 0", ("bench", "", 0)),
    ("bench 100000", ("bench", "", 100_000)),
];

#[test]
fn lines_are_commands(rt: HostRuntime) -> Result<(), Fail> {
    let alloc = rt.alloc();
    assert!(rt; matches!(read_line(alloc, b""), Ok(None)));
    for &(line, want) in LINES {
        is_command(&rt, alloc, line.as_bytes(), want);
    }
    let show = format!(in alloc; "show {A_HASH} {A_HASH}")?;
    is_command(&rt, alloc, show.as_bytes(), ("show", "", 2));
    let export = format!(in alloc; "export {A_HASH} A1")?;
    is_command(&rt, alloc, export.as_bytes(), ("export", "A1", 1));
    Ok(())
}

fn fault_of(alloc: Global, line: &[u8]) -> Option<LineFault> {
    read_line(alloc, line).err()
}

// Lines, and why they are refused.
const REFUSED: &[(&str, LineFault)] = &[
    ("show x", LineFault::BadHash),
    ("conflicts x", LineFault::BadHash),
    ("export x A1", LineFault::BadHash),
    ("export x", LineFault::Syntax),
    ("shows x", LineFault::Syntax),
    ("show  x", LineFault::Syntax),
    ("heads ", LineFault::Syntax),
    ("heads x", LineFault::Syntax),
    ("bench 100001", LineFault::Syntax),
    ("bench 01", LineFault::Syntax),
    ("bench +1", LineFault::Syntax),
    ("bench 18446744073709551617", LineFault::Syntax),
];

#[test]
fn lines_are_refused(rt: HostRuntime) -> Result<(), Fail> {
    let alloc = rt.alloc();
    let long = vec![in alloc; b'x'; 65_537]?;
    assert!(rt; matches!(read_line(alloc, &long), Err(LineFault::TooLong)));
    assert!(rt; matches!(read_line(alloc, &long[1..]), Err(LineFault::Syntax)));
    for &(line, fault) in REFUSED {
        assert_eq!(rt; fault_of(alloc, line.as_bytes()), Some(fault), "{line}");
    }
    Ok(())
}

// Whether a line is told as a word that is no hash.
fn has_bad_hash(alloc: Global, line: &[u8]) -> bool {
    matches!(read_line(alloc, line), Err(LineFault::BadHash))
}

#[test]
fn a_long_name_is_told_before_a_bad_hash(rt: HostRuntime) -> Result<(), Fail> {
    let alloc = rt.alloc();
    let mut line = format!(in alloc; "export x {A_HASH}")?;
    assert!(rt; has_bad_hash(alloc, line.as_bytes()));
    for _ in 0..15 {
        line.push_str(A_HASH)?;
    }
    assert!(rt; has_bad_hash(alloc, line.as_bytes()));
    line.push('x')?;
    assert!(rt; matches!(read_line(alloc, line.as_bytes()), Err(LineFault::Syntax)));
    Ok(())
}

// The words, and those of the commands that they mean.
const PLANS: &[(&[&str], &[&str])] = &[
    (&["show", "d", A_HASH], &["load", "show"]),
    (&["check", "d"], &["load"]),
    (&["normalize", "x", "y"], &["load", "save"]),
    (&["history", "d"], &["load", "history"]),
];

#[test]
fn words_have_plans(rt: HostRuntime) -> Result<(), Fail> {
    let alloc = rt.alloc();
    let run = words(&rt, &["run"])?;
    assert!(rt; matches!(plan(alloc, run.as_slice()), Ok(Plan::ReadInput)));
    for &(texts, want) in PLANS {
        let list = words(&rt, texts)?;
        match plan(alloc, list.as_slice()) {
            Ok(Plan::Lines(lines)) => assert!(rt;
                lines
                    .as_slice()
                    .iter()
                    .map(|command| parts(command).0)
                    .eq(want.iter().copied()),
                "{texts:?}"
            ),
            _ => assert!(rt; false, "{texts:?}"),
        }
    }
    Ok(())
}

// Words that mean nothing.
const NO_PLANS: &[&[&str]] = &[
    &[],
    &["show"],
    &["show", "d", "x"],
    &["help"],
    &["check", "-d"],
    &["history", "d", "e"],
];

#[test]
fn words_have_no_plan(rt: HostRuntime) -> Result<(), Fail> {
    let alloc = rt.alloc();
    for &texts in NO_PLANS {
        let list = words(&rt, texts)?;
        let fault = plan(alloc, list.as_slice()).err();
        assert_eq!(rt; fault, Some(PlanFault::BadWords), "{texts:?}");
    }
    Ok(())
}
