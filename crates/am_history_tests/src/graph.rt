//! Tests of am_graph: a small graph with a fork and a merge, and a chain of which one change merges many, which is copied too.
//! A function that has a graph of its own only lends it, since each of its ways out is proved to drop it well.
ghost use Rattle.std.specs.Prelude.{◌↔◌, IsTrue};
ghost use Rattle.am_types.specs.Order.{hash_cmp, Ascends};

use am_graph::{Added, Graph, GraphFault};
use am_types::{ActorId, Hash, IdRef, Twin};
use std::alloc::Global;
use std::cmp::Ordering;
use std::process::Abort;
use std::test::Fail;

/// A change: the byte that its hash repeats, its actor, its seq, its start, how many operations it has, and the bytes of
/// the hashes of its dependencies.
type Sample<'a> = (u8, &'a [u8], u16, u16, u16, &'a [u8]);

const AA: &[u8] = &[0xaa];

const BB: &[u8] = &[0xbb];

const CC: &[u8] = &[0xcc];

/// 5 and 3 have no dependencies and differ in their hashes alone; 2 and 9 are on 5, 1 is on both, and 7 is on 9.
const SMALL: &[Sample<'static>] = &[
    (5, AA, 1, 1, 3, &[]),
    (2, BB, 1, 4, 1, &[5]),
    (9, AA, 2, 4, 2, &[5]),
    (1, AA, 3, 6, 0, &[2, 9]),
    (7, BB, 2, 6, 1, &[9]),
    (3, AA, 1, 1, 3, &[]),
];

/// Changes that are added to these, and what is answered.
const ADDED: &[(Sample<'static>, Result<Added, GraphFault>)] = &[
    ((9, AA, 2, 4, 2, &[5]), Ok(Added::Same)),
    ((9, BB, 2, 4, 2, &[5]), Ok(Added::Clash)),
    ((6, BB, 3, 7, 1, &[7]), Ok(Added::New)),
    (
        (4, AA, 4, 6, 1, &[8]),
        Err(GraphFault::MissingDep(Hash([8; 32]))),
    ),
];

/// Whether a change is held, the counter of its last operation, and its depth.
const TOLD: &[(u8, (bool, Option<u64>, Option<u64>))] = &[
    (5, (true, Some(3), Some(0))),
    (1, (true, Some(5), Some(2))),
    (7, (true, Some(6), Some(2))),
    (8, (false, None, None)),
];

/// The changes that are found by an actor and a seq.
const FOUND: &[(&[u8], u64, Option<Hash>)] = &[(AA, 1, Some(Hash([3; 32]))), (BB, 3, None)];

const HEADS: &[u8] = &[1, 3, 7];

const ORDER: &[u8] = &[3, 5, 9, 2, 1, 7];

/// The ancestors of the merge.
const ANCESTORS: &[u8] = &[1, 2, 5, 9];

const MERGE: &[Hash] = &[Hash([1; 32])];

/// Whether a counter of an actor is covered where the merge is, the actor's last seq there, and where its counters end.
const COVERED: &[(u64, &[u8], (bool, u64, u64))] = &[
    (5, AA, (true, 3, 6)),
    (6, AA, (false, 3, 6)),
    (4, BB, (true, 1, 5)),
    (1, CC, (false, 0, 0)),
];

/// A change on every fourth change of a chain of 40.
const MERGING: Sample<'static> = (100, BB, 1, 38, 1, &[4, 8, 12, 16, 20, 24, 28, 32, 36]);

/// The first change of a second chain.
const BEHIND: Sample<'static> = (101, CC, 1, 39, 1, &[100]);

/// The last seqs of three actors at a change: at the end of the chain, at the change that merges many, and at changes
/// of the second chain, each of which is on that one too.
const REACHED: &[(u8, [u64; 3])] = &[
    (39, [40, 0, 0]),
    (100, [37, 1, 0]),
    (101, [37, 1, 1]),
    (104, [37, 1, 4]),
    (139, [37, 1, 39]),
];

fn hash(byte: u8) -> Hash {
    Hash([byte; 32])
}

fn hashes(alloc: Global, bytes: &[u8]) -> Result<Vec<Hash>, Fail> {
    let mut hashes = Vec::new(alloc);
    for byte in bytes {
        hashes.push(hash(*byte))?;
    }
    Ok(hashes)
}

// The bytes that the hashes repeat.
fn bytes(alloc: Global, hashes: &[Hash]) -> Result<Vec<u8>, Fail> {
    let mut bytes = Vec::new(alloc);
    for hash in hashes {
        bytes.push(hash.0[0])?;
    }
    Ok(bytes)
}

// Whether each hash is below the next.
fn ascend(hashes: &[Hash]) -> bool
    ensures { IsTrue result ↔ Ascends hash_cmp hashes.now }
{
    for i in 1..hashes.len() {
        if hashes[i - 1].cmp(&hashes[i]) != Ordering::Less {
            return false;
        }
    }
    true
}

// Adds a change whose dependencies ascend.
fn add(
    graph: &mut Graph,
    alloc: Global,
    sample: Sample<'_>,
) -> Result<Result<Added, GraphFault>, Fail> {
    let (byte, actor, seq, start, count, deps) = sample;
    let actor = ActorId::of(alloc, actor)?;
    let deps = hashes(alloc, deps)?;
    if start == 0 || !ascend(deps.as_slice()) {
        return Err(Fail::from("no such change"));
    }
    let (seq, start, count) = (u64::from(seq), u64::from(start), u64::from(count));
    Ok(graph.add(
        alloc,
        hash(byte),
        &actor,
        seq,
        start,
        count,
        deps.as_slice(),
    ))
}

fn small(alloc: Global) -> Result<Graph, Fail> {
    let mut graph = Graph::new(alloc);
    add_all(&mut graph, alloc, SMALL)?;
    Ok(graph)
}

fn add_all(graph: &mut Graph, alloc: Global, samples: &[Sample<'_>]) -> Result<(), Fail> {
    for sample in samples {
        add(graph, alloc, *sample)??;
    }
    Ok(())
}

#[test]
fn adds_once(rt: HostRuntime) -> Result<(), Fail> {
    let mut graph = small(rt.alloc())?;
    adds(&rt, rt.alloc(), &mut graph)
}

fn adds(rt: &impl Abort, alloc: Global, graph: &mut Graph) -> Result<(), Fail> {
    for (sample, answer) in ADDED {
        assert_eq!(rt; add(graph, alloc, *sample)?, *answer);
    }
    Ok(())
}

#[test]
fn answers(rt: HostRuntime) -> Result<(), Fail> {
    let graph = small(rt.alloc())?;
    tells_of_changes(&rt, &graph);
    finds_changes(&rt, &graph);
    lists_and_clocks(&rt, rt.alloc(), &graph)
}

fn tells_of_changes(rt: &impl Abort, graph: &Graph) {
    for (byte, answer) in TOLD {
        assert_eq!(rt; told(graph, *byte), *answer);
    }
}

fn told(graph: &Graph, byte: u8) -> (bool, Option<u64>, Option<u64>) {
    let hash = hash(byte);
    (graph.holds(&hash), graph.max_of(&hash), graph.depth(&hash))
}

fn finds_changes(rt: &impl Abort, graph: &Graph) {
    for (actor, seq, hash) in FOUND {
        assert_eq!(rt; graph.find(*actor, *seq), *hash);
    }
}

// What is found with memory.
fn lists_and_clocks(rt: &impl Abort, alloc: Global, graph: &Graph) -> Result<(), Fail> {
    lists_changes(rt, alloc, graph)?;
    tells_how_far_actors_go(rt, alloc, graph)
}

fn lists_changes(rt: &impl Abort, alloc: Global, graph: &Graph) -> Result<(), Fail> {
    let (heads, order, ancestors) = lists(alloc, graph)?;
    let found = (heads.as_slice(), order.as_slice(), ancestors.as_slice());
    assert_eq!(rt; found, (HEADS, ORDER, ANCESTORS));
    Ok(())
}

// The heads, all in order, and the ancestors of the merge.
fn lists(alloc: Global, graph: &Graph) -> Result<(Vec<u8>, Vec<u8>, Vec<u8>), Fail> {
    let heads = graph.heads(alloc)?;
    let order = graph.order(alloc)?;
    let ancestors = graph.ancestors(alloc, MERGE)?;
    let heads = bytes(alloc, heads.as_slice())?;
    let order = bytes(alloc, order.as_slice())?;
    let ancestors = bytes(alloc, ancestors.as_slice())?;
    Ok((heads, order, ancestors))
}

fn tells_how_far_actors_go(rt: &impl Abort, alloc: Global, graph: &Graph) -> Result<(), Fail> {
    for (counter, actor, answer) in COVERED {
        let id = IdRef {
            counter: *counter,
            actor: *actor,
        };
        assert_eq!(rt; covered(alloc, graph, id)?, [*answer; 2]);
    }
    Ok(())
}

// What a clock says, and what one of a lent graph.
fn covered(alloc: Global, graph: &Graph, id: IdRef<'_>) -> Result<[(bool, u64, u64); 2], Fail> {
    let clock = graph.clock(alloc, MERGE)?;
    let reached = graph.reached(alloc, MERGE)?;
    let clock = (
        clock.covers(id),
        clock.last_seq(id.actor),
        clock.end(id.actor),
    );
    let reached = (
        reached.covers(id),
        reached.last_seq(id.actor),
        reached.end(id.actor),
    );
    Ok([clock, reached])
}

// Adds a change of the chain.
fn add_link(graph: &mut Graph, alloc: Global, byte: u8) -> Result<(), Fail> {
    let turn = u16::from(byte) + 1;
    let below = [byte.saturating_sub(1)];
    let deps = if byte == 0 { &[] } else { &below[..] };
    add(graph, alloc, (byte, AA, turn, turn, 1, deps))??;
    Ok(())
}

// Adds a change of the second chain, but for its first.
fn add_behind(graph: &mut Graph, alloc: Global, byte: u8) -> Result<(), Fail> {
    let turn = u16::from(byte.saturating_sub(100));
    let below = [100, byte.saturating_sub(1)];
    add(graph, alloc, (byte, CC, turn, 38 + turn, 1, &below))??;
    Ok(())
}

fn add_chains(graph: &mut Graph, alloc: Global) -> Result<(), Fail> {
    for byte in 0..40 {
        add_link(graph, alloc, byte)?;
    }
    add_all(graph, alloc, &[MERGING, BEHIND])?;
    for byte in 102..140 {
        add_behind(graph, alloc, byte)?;
    }
    Ok(())
}

#[test]
fn merges_many(rt: HostRuntime) -> Result<(), Fail> {
    let mut graph = Graph::new(rt.alloc());
    add_chains(&mut graph, rt.alloc())?;
    tells_last_seqs(&rt, rt.alloc(), &graph)?;
    tells_them_by_copy(&rt, rt.alloc(), &graph)
}

fn tells_them_by_copy(rt: &impl Abort, alloc: Global, graph: &Graph) -> Result<(), Fail> {
    let twin = graph.copy(alloc)?;
    tells_last_seqs(rt, alloc, &twin)
}

fn tells_last_seqs(rt: &impl Abort, alloc: Global, graph: &Graph) -> Result<(), Fail> {
    for (head, answer) in REACHED {
        assert_eq!(rt; last_seqs(alloc, graph, *head)?, *answer);
    }
    Ok(())
}

// The last seqs of the three actors at a change.
fn last_seqs(alloc: Global, graph: &Graph, byte: u8) -> Result<[u64; 3], Fail> {
    let clock = graph.clock(alloc, &[hash(byte)])?;
    Ok([clock.last_seq(AA), clock.last_seq(BB), clock.last_seq(CC)])
}
