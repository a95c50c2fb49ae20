//! Notes by three authors: a text of 2,000 letters, deletions, marks, a counter, a timestamp and a float.
use super::memory::{joined, outcome, replies_over};
use super::*;
use am_outside::MemoryFolder;
use std::process::Abort;
use std::test::Fail;

// The first writes notes; the second and the third change them at the same time.
const FIRST: &[(&str, u32)] = &[
    ("856f4a83f8e8746a019c110010", 1),
    ("11", 16),
    (
        "010180d095ffbc31056669727374000a010b020d1107130e152d3406420b560f57e80f7003000204000001d00f00000100027f0203030001d00f0700010008cf0f00000100027f0000047e0008ce0f0100017e057469746c65056974656d7300017c046e616d6505636f756e7402617404626f647900d00f7f05726174696f020104d00f017d01020003017f04d10f017f5602007c46186900d00f167f85014e6f7465736d696c6b0280d095ffbc31",
        1,
    ),
    ("6162636465666768696a", 200),
    ("000000000000f83fd80f00", 1),
];

const SECOND: &[(&str, u32)] = &[
    (
        "856f4a8308bdbf2101a40101f8e8746a59e2c61250a8bf27bb936187fdd4aa3807c5f07ae5db7e63e5f7784c10",
        1,
    ),
    ("22", 16),
    ("01d90f00000110", 1),
    ("11", 16),
    (
        "0c0104020611041306150f340142055606570970027102730600010b0100017f030a0700020a0100027f0809017e057469746c6505636f756e74000a0c7e01050a037e8601140a0053686f7070696e67030c010c017d0104030901",
        1,
    ),
];

const THIRD: &[(&str, u32)] = &[
    (
        "856f4a8387ca241901a70101f8e8746a59e2c61250a8bf27bb936187fdd4aa3807c5f07ae5db7e63e5f7784c10",
        1,
    ),
    ("33", 16),
    ("01d90f00000110", 1),
    ("11", 16),
    (
        "0e010402041104130515093402420456045706700471027302940103a5010a00010201000102070001020100017e110a7f057469746c65000201027f0102077d6602004e6f746573217f0102007f017f0101010100017f04626f6c640001",
        1,
    ),
];

// The text of the notes with so many times ten letters, this count and this title.
fn text_of(alloc: Global, tens: u32, count: u32, title: &str) -> Result<String, Fail> {
    let mut text = String::new(alloc);
    text.push_str("{\"body\":\"")?;
    for _ in 0..tens {
        text.push_str("abcdefghij")?;
    }
    let rest = format!(in alloc;
        "\",\"items\":[{{\"at\":{{\"$time\":1700000000000}},\"count\":{count},\"name\":\"milk\"}}],\"ratio\":{{\"$float\":\"000000000000f83f\"}},\"title\":\"{title}\"}}\n"
    )?;
    text.push_str(rest.as_str())?;
    Ok(text)
}

fn put_notes(alloc: Global, files: &mut MemoryFolder) -> Result<(), Fail> {
    files.put_file("first", &joined(alloc, FIRST)?)?;
    files.put_file("second", &joined(alloc, SECOND)?)?;
    files.put_file("third", &joined(alloc, THIRD)?)?;
    Ok(())
}

// The hash at which the notes are read, how often ten letters stand there, the count and the title.
const READS: &[(&str, u32, u32, &str)] = &[
    ("", 199, 5, "Notes!"),
    (
        " f8e8746a59e2c61250a8bf27bb936187fdd4aa3807c5f07ae5db7e63e5f7784c",
        200,
        2,
        "Notes",
    ),
    (
        " 08bdbf21c97ed5e49af5cf216a0b8a850b1d43b73ef6ec30cd13db0baf764fbd",
        199,
        5,
        "Shopping",
    ),
];

// Reads the notes there, after their delivery.
fn reads(
    rt: &impl Abort,
    alloc: Global,
    files: &mut MemoryFolder,
    hash: &str,
    text: &str,
) -> Result<(), Fail> {
    let script = format!(in alloc;
        "apply third\napply first\napply second\nshow{hash}\naudit{hash}\n"
    )?;
    let told = format!(in alloc;
        "ok added 0 waiting 1 rejected 0\nok added 2 waiting 0 rejected 0\nok added 1 waiting 0 rejected 0\n{text}{text}"
    )?;
    replies_over(
        rt,
        alloc,
        files,
        script.as_str(),
        Status::Done,
        told.as_str(),
    )
}

fn reads_all(rt: &impl Abort, alloc: Global, files: &mut MemoryFolder) -> Result<(), Fail> {
    for &(hash, tens, count, title) in READS {
        let text = text_of(alloc, tens, count, title)?;
        reads(rt, alloc, files, hash, text.as_str())?;
    }
    Ok(())
}

#[test]
fn notes_are_read_at_their_heads(rt: HostRuntime) -> Result<(), Fail> {
    let mut files = MemoryFolder::new(rt.alloc(), Vec::new(rt.alloc()));
    put_notes(rt.alloc(), &mut files)?;
    reads_all(&rt, rt.alloc(), &mut files)
}

// Their document. It is that of another program.
const WHOLE: &[(&str, u32)] = &[
    (
        "856f4a83f35d8a0f00bd13031011111111111111111111111111111111102222222222222222222222222222\
         222210333333333333333333333333333333330208bdbf21c97ed5e49af5cf216a0b8a850b1d43b73ef6ec30\
         cd13db0baf764fbd87ca2419c47f92aaa79c3156ccd70d10528fd7db79274256c44c16c63b1f4fb808010403\
         041305230e3509400443025602100105020911051314152f2114232434054216561957f70f80010f81010583\
         0106940104a5010b7d0001027f0102007dd80f0c777d80d095ffbc3180b0ea80c34e007f0566697273740002\
         7f000201020003070006d70f0000067f020403d20f07000cd10f0000067f0000047e000809017f000a017f00\
         bb0f017d04626f6479056974656d7305726174696f03057469746c6500017f0261740205636f756e747f046e\
         616d6500d20f04007e010203007f010b007f020a007f02bc0f0074077bd60fa970d80f00aa70037fd50faa70\
         0409017ec90fb87009017ec00fc170bb0f01060104d20f7e040204017f0002017f050b017f070a017f07bc0f\
         0102007785015686016600691814460a167f020a167f00bc0f16000000000000f83f4e6f74657353686f7070\
         696e674e6f7465732180d095ffbc3102036d696c6b",
        1,
    ),
    ("6162636465666768696a", 200),
    (
        "03007f0204007f0102000a01c80f007e01020b017ed90f000b011501c70f00157f04626f6c6400c70f0102",
        1,
    ),
];

// Files of the changes that their names number.
const PARTS: &[(&str, &[&[(&str, u32)]])] = &[
    ("1", &[FIRST]),
    ("2", &[SECOND]),
    ("3", &[THIRD]),
    ("12", &[FIRST, SECOND]),
    ("23", &[SECOND, THIRD]),
    ("31", &[THIRD, FIRST]),
    ("123", &[FIRST, SECOND, THIRD]),
    ("321", &[THIRD, SECOND, FIRST]),
];

// The notes in one delivery, in two and in three, in each order. What is saved in between has each delivery merged by itself.
const SPLITS: &[&str] = &[
    "apply 123\nsave kept\n",
    "apply 321\nsave kept\n",
    "apply 1\nsave kept\napply 23\nsave kept\n",
    "apply 2\nsave kept\napply 31\nsave kept\n",
    "apply 3\nsave kept\napply 12\nsave kept\n",
    "apply 12\nsave kept\napply 3\nsave kept\n",
    "apply 31\nsave kept\napply 2\nsave kept\n",
    "apply 23\nsave kept\napply 1\nsave kept\n",
    "apply 1\nsave kept\napply 2\nsave kept\napply 3\nsave kept\n",
    "apply 1\nsave kept\napply 3\nsave kept\napply 2\nsave kept\n",
    "apply 2\nsave kept\napply 1\nsave kept\napply 3\nsave kept\n",
    "apply 2\nsave kept\napply 3\nsave kept\napply 1\nsave kept\n",
    "apply 3\nsave kept\napply 1\nsave kept\napply 2\nsave kept\n",
    "apply 3\nsave kept\napply 2\nsave kept\napply 1\nsave kept\n",
];

// What is delivered so leaves this document.
fn leaves(
    rt: &impl Abort,
    alloc: Global,
    files: &mut MemoryFolder,
    script: &str,
    whole: &[u8],
) -> Result<(), Fail> {
    let (ended, _out) = outcome(alloc, files, script.as_bytes().to_vec(alloc)?)?;
    assert_eq!(rt; ended, Status::Done, "at {script}");
    assert_eq!(rt; files.file("kept"), Some(whole), "at {script}");
    Ok(())
}

fn put_splits(alloc: Global, files: &mut MemoryFolder) -> Result<(), Fail> {
    for &(name, parts) in PARTS {
        let mut bytes = Vec::new(alloc);
        for part in parts {
            bytes.extend_from_slice(&joined(alloc, *part)?)?;
        }
        files.put_file(name, &bytes)?;
    }
    Ok(())
}

#[test]
fn each_split_of_the_notes_leaves_one_document(rt: HostRuntime) -> Result<(), Fail> {
    let mut files = MemoryFolder::new(rt.alloc(), Vec::new(rt.alloc()));
    put_splits(rt.alloc(), &mut files)?;
    let whole = joined(rt.alloc(), WHOLE)?;
    for script in SPLITS {
        leaves(&rt, rt.alloc(), &mut files, *script, &whole)?;
    }
    Ok(())
}
