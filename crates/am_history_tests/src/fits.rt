//! Tests of am_fits: each verdict once beside one change, but for those of the limits.
ghost use Rattle.std.specs.Prelude.{◌≡◌, ◌∷◌, [], IfOk, OnOk};
ghost use Rattle.am_graph.specs.Graphs.{nodes};
ghost use Rattle.am_fits.specs.Indexes.{index_of};
ghost use Rattle.am_history_tests.specs.FitSamples.{aa, first, sample, set_a, sevens};

use am_fits::{OpIndex, Verdict, fits};
use am_graph::Graph;
use am_types::{
    ActorFault, ActorId, Bytes, Change, Hash, Key, List, ObjId, Op, OpId, RawValue, Text, Twin,
};
use std::alloc::{AllocError, Global};
use std::process::Abort;
use std::test::Fail;

const FIRST: Hash = Hash([7; 32]);

/// The seq, the start and the predecessor's counter of a change on the first one, and its verdict.
const VERDICTS: &[(u64, u64, u64, Verdict)] = &[
    (1, 1, 1, Verdict::SeqClash(FIRST)),
    (3, 2, 1, Verdict::SeqGap),
    (2, 1, 1, Verdict::StartLow(FIRST)),
    (2, 2, 5, Verdict::BadReference(0)),
    (2, 2, 1, Verdict::Fits),
];

fn one<T: Drop>(alloc: Global, item: T) -> Result<List<T>, AllocError>
    ensures { IfOk result (λ list. list ≡ item ∷ []) }
{
    let mut list = List::new(alloc);
    list.push(item)?;
    Ok(list)
}

// An operation that sets the name a of the root to null.
fn set_a(alloc: Global, preds: List<OpId>) -> Result<Op, ActorFault>
    ensures { IfOk result (λ op. op ≡ set_a preds) }
{
    let mut name = Text::new(alloc);
    name.push_str("a")?;
    Ok(Op {
        obj: ObjId::Root,
        key: Key::Name(name),
        insert: false,
        action: 1,
        value: RawValue {
            kind: 0,
            raw: Bytes::new(alloc),
        },
        preds,
        expand: false,
        mark: None,
    })
}

// A change of one such operation.
fn change(
    alloc: Global,
    seq: u64,
    start: u64,
    deps: List<Hash>,
    preds: List<OpId>,
) -> Result<Change, ActorFault>
    ensures { IfOk result (λ c. c ≡ sample seq start deps preds) }
{
    let op = set_a(alloc, preds)?;
    let ops = one(alloc, op)?;
    let actor = ActorId::of(alloc, &[0xaa])?;
    Ok(Change {
        deps,
        actor,
        seq,
        start,
        time: 0,
        message: Text::new(alloc),
        ops,
        extra: Bytes::new(alloc),
    })
}

// A change that depends on the first one, and has a predecessor with this counter.
fn second(alloc: Global, seq: u64, start: u64, pred: u64) -> Result<Change, ActorFault>
    ensures { IfOk result (λ c. c ≡ sample seq start (sevens ∷ []) (record { counter = pred; actor = aa } ∷ [])) }
{
    let actor = ActorId::of(alloc, &[0xaa])?;
    let id = OpId {
        counter: pred,
        actor,
    };
    let preds = one(alloc, id)?;
    let deps = one(alloc, FIRST)?;
    change(alloc, seq, start, deps, preds)
}

// Adds the first change.
fn add(alloc: Global, graph: &mut Graph) -> Result<(), Fail>
    requires { graph.old ≡ [] }
    ensures { OnOk result (graph.new ≡ nodes (first ∷ [])) }
{
    let actor = ActorId::of(alloc, &[0xaa])?;
    graph.add(alloc, FIRST, &actor, 1, 1, 1, &[])?;
    Ok(())
}

// Takes the first change in.
fn admit(alloc: Global, index: &mut OpIndex) -> Result<(), Fail>
    requires { index.old ≡ index_of [] }
    ensures { OnOk result (index.new ≡ index_of (first.change ∷ [])) }
{
    let change = change(alloc, 1, 1, List::new(alloc), List::new(alloc))?;
    index.admit(alloc, &change)?;
    Ok(())
}

// The verdict beside the first change on one with small numbers.
fn judged(
    alloc: Global,
    graph: &Graph,
    index: &OpIndex,
    seq: u64,
    start: u64,
    pred: u64,
) -> Result<Verdict, Fail>
    requires graph { graph.now ≡ nodes (first ∷ []) }
    requires index { index.now ≡ index_of (first.change ∷ []) }
{
    if seq == 0 || seq > 9 || start == 0 || start > 9 || pred == 0 || pred > 9 {
        return Err(Fail::from("numbers from 1 to 9 are wanted"));
    }
    let change = second(alloc, seq, start, pred)?;
    Ok(fits(alloc, graph, index, &change)?)
}

fn judge(rt: &impl Abort, alloc: Global, graph: &Graph, index: &OpIndex) -> Result<(), Fail>
    requires graph { graph.now ≡ nodes (first ∷ []) }
    requires index { index.now ≡ index_of (first.change ∷ []) }
{
    for (seq, start, pred, verdict) in VERDICTS {
        assert_eq!(rt; judged(alloc, graph, index, *seq, *start, *pred)?, *verdict);
    }
    Ok(())
}

fn graph_of_first(alloc: Global) -> Result<Graph, Fail>
    ensures { IfOk result (λ graph. graph ≡ nodes (first ∷ [])) }
{
    let mut graph = Graph::new(alloc);
    add(alloc, &mut graph)?;
    Ok(graph)
}

fn index_of_first(alloc: Global) -> Result<OpIndex, Fail>
    ensures { IfOk result (λ index. index ≡ index_of (first.change ∷ [])) }
{
    let mut index = OpIndex::new(alloc);
    admit(alloc, &mut index)?;
    Ok(index)
}

// The same with a copy of the index.
fn judge_by_copy(rt: &impl Abort, alloc: Global, graph: &Graph, index: &OpIndex) -> Result<(), Fail>
    requires graph { graph.now ≡ nodes (first ∷ []) }
    requires index { index.now ≡ index_of (first.change ∷ []) }
{
    let index = index.copy(alloc)?;
    judge(rt, alloc, graph, &index)
}

fn judge_by_index(rt: &impl Abort, alloc: Global, graph: &Graph) -> Result<(), Fail>
    requires { graph.now ≡ nodes (first ∷ []) }
{
    let index = index_of_first(alloc)?;
    judge_by_copy(rt, alloc, graph, &index)
}

#[test]
fn each_verdict(rt: HostRuntime) -> Result<(), Fail> {
    let graph = graph_of_first(rt.alloc())?;
    judge_by_index(&rt, rt.alloc(), &graph)
}
