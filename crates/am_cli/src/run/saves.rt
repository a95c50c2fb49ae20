//! The files that are kept, byte for byte. They are those of another program.
use super::memory::{folder, replies_over};
use super::*;
use am_outside::MemoryFolder;
use std::process::Abort;
use std::test::Fail;

// The document of no changes.
const EMPTY: &str = "856f4a83b81a9544000400000000";

// That of A1.
const ONE: &str =
    "856f4a83e18cc6cf005f0101aa01d99aa04d2627b06462ea181e063a2e07e16255c088d1fe97ecf9c964cfa6\
     ce32060102030213022302400256020815032102230234014202560257018001027f007f017f017f007f007f\
     077f01617f007f01017f017f13017f0000";

// That of A1 and A3.
const DELETED: &str =
    "856f4a83ab8ecba8006e0101aa017816ce7cd898eba128d9bc28f3c8153b357228d8bf871541c3aad562f8f0\
     a9e20701020302130223024003430256020a1503210223023401420256025701800102810102830102020002\
     01020102007e00017f0002077f01617f007f01017f017f13017f017f007f0201";

// That of A1 and B1.
const BOTH: &str =
    "856f4a83dddc3f330088010201aa01bb02512440f136e77f01245265423c2b83b809183b6afe018895fe90fb\
     9daa9cde70d99aa04d2627b06462ea181e063a2e07e16255c088d1fe97ecf9c964cfa6ce3206010303031303\
     2302400256020815032103230334014202560257028001027e00017e01007e01000200020002070201617e00\
     017e01000202010213010202000100";

// The document of no changes, and behind it A2.
const WAITING: &str =
    "856f4a83b81a9544000400000000856f4a83de7aa5d2014801d99aa04d2627b06462ea181e063a2e07e16255\
     c088d1fe97ecf9c964cfa6ce3201aa020200000008150334014202560257017002710273027f0161017f017f\
     13027f017f007f01";

// The chunk of E2.
const MIDDLE: &str =
    "856f4a838f044de3012901c2d41eda67b06af83d47e4dad1ed7052f50cae7a8eff6882d024a4faca6cb82301\
     aa020400000000";

// The chunk of A1.
const CHUNK: &str =
    "856f4a83d99aa04d01200001aa0101000000061503340142025602570170027f0161017f017f13017f00";

// A script, its replies, and the bytes that it leaves in the file `kept`.
struct Case {
    script: &'static str,
    replies: &'static str,
    kept: &'static str,
}

const CASES: &[Case] = &[
    Case {
        script: "save kept\n",
        replies: "ok 14\n",
        kept: EMPTY,
    },
    Case {
        script: "apply A1\nsave kept\n",
        replies: "ok added 1 waiting 0 rejected 0\nok 105\n",
        kept: ONE,
    },
    Case {
        script: "apply A1\napply A1\nsave kept\napply A1\n",
        replies: "ok added 1 waiting 0 rejected 0\nok added 0 waiting 0 rejected 0\nok 105\nok added 0 waiting 0 rejected 0\n",
        kept: ONE,
    },
    Case {
        script: "apply A1\nsave kept\napply A3\nsave kept\n",
        replies: "ok added 1 waiting 0 rejected 0\nok 105\nok added 1 waiting 0 rejected 0\nok 120\n",
        kept: DELETED,
    },
    Case {
        script: "apply A1\napply B1\nsave kept\n",
        replies: "ok added 1 waiting 0 rejected 0\nok added 1 waiting 0 rejected 0\nok 147\n",
        kept: BOTH,
    },
    Case {
        script: "apply B1\napply A1\nsaveall kept\n",
        replies: "ok added 1 waiting 0 rejected 0\nok added 1 waiting 0 rejected 0\nok 147\n",
        kept: BOTH,
    },
    Case {
        script: "apply A2\nsave kept\n",
        replies: "ok added 0 waiting 1 rejected 0\nok 14\n",
        kept: EMPTY,
    },
    Case {
        script: "apply A2\nsaveall kept\napply A1\nshow\n",
        replies: "ok added 0 waiting 1 rejected 0\nok 96\nok added 2 waiting 0 rejected 0\n{\"a\":2}\n",
        kept: WAITING,
    },
    Case {
        script: "apply A1\nexport D99AA04D2627B06462EA181E063A2E07E16255C088D1FE97ECF9C964CFA6CE32 kept\n",
        replies: "ok added 1 waiting 0 rejected 0\nok 42\n",
        kept: CHUNK,
    },
    Case {
        script: "load F\nsave kept\n",
        replies: "ok added 2 waiting 0 rejected 0\nok 147\n",
        kept: BOTH,
    },
    Case {
        script: "load E\nshow\nexport 8f044de3eafa9501042840995bcf6669e83e54bab743192adbaace682ff3d305 kept\n",
        replies: "ok added 3 waiting 0 rejected 0\n{\"a\":1,\"b\":2,\"c\":3,\"d\":4}\nok 51\n",
        kept: MIDDLE,
    },
];

fn keeps(
    rt: &impl Abort,
    alloc: Global,
    files: &mut MemoryFolder,
    case: &Case,
) -> Result<(), Fail> {
    let script = case.script;
    replies_over(rt, alloc, files, script, Status::Done, case.replies)?;
    let kept = hex::decode(alloc, case.kept)?;
    assert_eq!(rt; files.file("kept"), Some(kept.as_slice()), "at {script}");
    Ok(())
}

fn keeps_anew(rt: &impl Abort, alloc: Global, case: &Case) -> Result<(), Fail> {
    let mut files = folder(alloc, Vec::new(alloc))?;
    keeps(rt, alloc, &mut files, case)
}

#[test]
fn files_are_kept_byte_for_byte(rt: HostRuntime) -> Result<(), Fail> {
    for case in CASES {
        keeps_anew(&rt, rt.alloc(), case)?;
    }
    Ok(())
}
