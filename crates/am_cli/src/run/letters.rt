//! Letters that three people put at one place, delivered in each order.
use super::scripts::{JOINED, replies_to};
use super::*;
use std::test::Fail;

const FIRST_WAITS: &str = "ok added 0 waiting 1 rejected 0";

const SECOND_WAITS: &str = "ok added 0 waiting 2 rejected 0";

const TWO_JOIN: &str = "ok added 2 waiting 0 rejected 0";

const THREE_JOIN: &str = "ok added 3 waiting 0 rejected 0";

// Each order, with the replies. The second and the third wait for the first.
const ORDERS: &[&[(&str, &str)]] = &[
    &[
        ("apply T1", JOINED),
        ("apply T2", JOINED),
        ("apply T3", JOINED),
    ],
    &[
        ("apply T1", JOINED),
        ("apply T3", JOINED),
        ("apply T2", JOINED),
    ],
    &[
        ("apply T2", FIRST_WAITS),
        ("apply T1", TWO_JOIN),
        ("apply T3", JOINED),
    ],
    &[
        ("apply T2", FIRST_WAITS),
        ("apply T3", SECOND_WAITS),
        ("apply T1", THREE_JOIN),
    ],
    &[
        ("apply T3", FIRST_WAITS),
        ("apply T1", TWO_JOIN),
        ("apply T2", JOINED),
    ],
    &[
        ("apply T3", FIRST_WAITS),
        ("apply T2", SECOND_WAITS),
        ("apply T1", THREE_JOIN),
    ],
];

// What is read then, whatever the order was.
const READS: &[(&str, &str)] = &[
    ("show", r#"{"t":"ayxb"}"#),
    ("show %T1%", r#"{"t":"ab"}"#),
    ("show %T2%", r#"{"t":"axb"}"#),
    ("show %T1% %T2%", r#"{"t":"axb"}"#),
    ("audit", r#"{"t":"ayxb"}"#),
    ("audit %T2% %T1%", r#"{"t":"axb"}"#),
    (
        "conflicts %T1%",
        r#"{"t":[["1@aa",[[["2@aa","a"]],[["3@aa","b"]]]]]}"#,
    ),
];

#[test]
fn letters_read_alike_in_each_order(rt: HostRuntime) -> Result<(), Fail> {
    for steps in ORDERS {
        replies_to(&rt, rt.alloc(), *steps, READS, Status::Done)?;
    }
    Ok(())
}
