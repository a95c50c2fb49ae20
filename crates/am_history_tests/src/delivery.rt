//! Tests of am_delivery: deliveries, one after another, to a closed set that is kept as a list.
ghost use Rattle.std.specs.Prelude.{◌≡◌, ◌≤◌, [], All, IfOk, length, take};
ghost use Rattle.am_types.specs.Deliver.{MayCome};
ghost use Rattle.am_history_tests.specs.DeliverySamples.{Kept, sample};
ghost use Rattle.am_delivery.specs.Waiting.{member_of, members_of, waiting_of};

use crate::sample_set::SampleSet;
use am_delivery::{Pending, Settled, deliver};
use am_types::{ActorId, Bytes, Change, Hash, List, Rejected, Text, Why, hash_known, hashes_known};
use std::alloc::{AllocError, Global};
use std::collections::BTreeMap;
use std::process::Abort;
use std::test::Fail;

/// A change: the byte that its hash repeats, the byte of its actor, its seq, and the byte of the hash of its dependency.
type Sample = (u8, u8, u64, Option<u8>);

/// Changes that are delivered, and the bytes of hashes: of those that join, in order, and of those that wait afterwards.
/// Between these, the first that is rejected, and whether there was memory.
type Delivery = (
    &'static [Sample],
    &'static [u8],
    Option<Rejected>,
    bool,
    &'static [u8],
);

/// The set has no memory for a change with the seq 2.
const DELIVERIES: &[Delivery] = &[
    // a chain, the last one first
    (
        &[
            (3, 0xcc, 1, Some(2)),
            (2, 0xbb, 1, Some(1)),
            (1, 0xaa, 1, None),
        ],
        &[1, 2, 3],
        None,
        true,
        &[],
    ),
    // one change twice
    (
        &[(5, 0xdd, 1, None), (5, 0xdd, 1, None)],
        &[5],
        None,
        true,
        &[],
    ),
    (&[(7, 0xee, 1, Some(6))], &[], None, true, &[7]),
    // what waits, and what is closed, comes again
    (
        &[(7, 0xee, 1, Some(6)), (1, 0xaa, 1, None)],
        &[],
        None,
        true,
        &[7],
    ),
    // another change has the actor and the seq
    (
        &[(8, 0xaa, 1, None)],
        &[],
        Some(Rejected {
            hash: Hash([8; 32]),
            why: Why::SeqClash(Hash([1; 32])),
        }),
        true,
        &[7],
    ),
    // another change has the hash
    (
        &[(7, 0xff, 1, Some(6))],
        &[],
        Some(Rejected {
            hash: Hash([7; 32]),
            why: Why::HashClash,
        }),
        true,
        &[7],
    ),
    // one joins before memory is wanting
    (
        &[(4, 0x11, 1, None), (6, 0xaa, 2, None)],
        &[],
        None,
        false,
        &[7],
    ),
    (
        &[(6, 0x22, 1, None), (4, 0x11, 1, None)],
        &[4, 6, 7],
        None,
        true,
        &[],
    ),
];

fn sample(alloc: Global, actor: ActorId, seq: u64, deps: List<Hash>) -> Change
    ensures { result ≡ sample actor seq deps }
{
    Change {
        deps,
        actor,
        seq,
        start: 1,
        time: 0,
        message: Text::new(alloc),
        ops: List::new(alloc),
        extra: Bytes::new(alloc),
    }
}

fn hashes(alloc: Global, byte: Option<u8>) -> Result<List<Hash>, AllocError>
    ensures { IfOk result (λ hashes. length hashes ≤ 1) }
{
    let mut hashes = List::new(alloc);
    if let Some(byte) = byte {
        hashes.push(Hash([byte; 32]))?;
    }
    Ok(hashes)
}

fn change(alloc: Global, sample_of: &Sample) -> Result<(Hash, Change), Fail>
    ensures { IfOk result (λ entry. MayCome (member_of entry)) }
{
    let (byte, actor, seq, dep) = *sample_of;
    if seq == 0 || seq > 9 {
        return Err(Fail::from("a seq from 1 to 9 is wanted"));
    }
    let hash = Hash([byte; 32]);
    hash_known(&hash);
    let deps = hashes(alloc, dep)?;
    hashes_known(deps.as_slice());
    let actor = ActorId::of(alloc, &[actor])?;
    let _bytes = actor.as_slice();
    Ok((hash, sample(alloc, actor, seq, deps)))
}

fn changes(alloc: Global, samples: &[Sample]) -> Result<Vec<(Hash, Change)>, Fail>
    ensures { IfOk result (λ changes. All MayCome (members_of changes.items)) }
{
    let mut changes = Vec::new(alloc);
    for sample in samples {
        let entry = change(alloc, sample)?;
        changes.push(entry)?;
    }
    Ok(changes)
}

// The first bytes of the hashes.
fn joined_bytes(alloc: Global, entries: &[(Hash, Box<Change>)]) -> Result<Vec<u8>, AllocError> {
    let mut bytes = Vec::new(alloc);
    for entry in entries {
        bytes.push(entry.0.0[0])?;
    }
    Ok(bytes)
}

fn waiting_bytes(
    alloc: Global,
    waiting: &BTreeMap<Hash, Box<Change>>,
) -> Result<Vec<u8>, AllocError> {
    let mut bytes = Vec::new(alloc);
    for (hash, _) in waiting.iter() {
        bytes.push(hash.0[0])?;
    }
    Ok(bytes)
}

// The bytes of the hashes of those that joined, the first that was rejected, and that there was memory.
fn told(alloc: Global, settled: &Settled) -> Result<(Vec<u8>, Option<Rejected>, bool), AllocError> {
    let bytes = joined_bytes(alloc, settled.joined.as_slice())?;
    let rejected = settled.rejected.as_slice().first().copied();
    Ok((bytes, rejected, true))
}

// Delivers the changes. Answers the bytes of those that join, the first that is rejected, and whether there was memory;
// where there was none, the closed set is cut off.
fn delivered(
    alloc: Global,
    closed: &mut SampleSet,
    waiting: &mut BTreeMap<Hash, Box<Change>>,
    pending: &mut Option<Pending>,
    samples: &[Sample],
) -> Result<(Vec<u8>, Option<Rejected>, bool), Fail>
    requires { Kept (members_of closed.old.held.items) (members_of (take closed.old.resting closed.old.held.items)) (waiting_of waiting.old) pending.old }
    ensures { Kept (members_of closed.new.held.items) (members_of (take closed.new.resting closed.new.held.items)) (waiting_of waiting.new) pending.new }
{
    let changes = changes(alloc, samples)?;
    match deliver(alloc, closed, waiting, pending, changes) {
        Ok(settled) => Ok(told(alloc, &settled)?),
        Err(AllocError) => {
            closed.cut();
            Ok((Vec::new(alloc), None, false))
        }
    }
}

fn deliver_all(
    rt: &impl Abort,
    alloc: Global,
    closed: &mut SampleSet,
    waiting: &mut BTreeMap<Hash, Box<Change>>,
    pending: &mut Option<Pending>,
) -> Result<(), Fail>
    requires { Kept (members_of closed.old.held.items) (members_of (take closed.old.resting closed.old.held.items)) (waiting_of waiting.old) pending.old }
{
    for (samples, joined, rejected, memory, left) in DELIVERIES {
        let told = delivered(alloc, closed, waiting, pending, *samples)?;
        assert_eq!(rt; told.0.as_slice(), *joined);
        assert_eq!(rt; (told.1, told.2), (*rejected, *memory));
        let waits = waiting_bytes(alloc, waiting)?;
        assert_eq!(rt; waits.as_slice(), *left);
    }
    Ok(())
}

fn from_nothing(
    rt: &impl Abort,
    alloc: Global,
    closed: &mut SampleSet,
    waiting: &mut BTreeMap<Hash, Box<Change>>,
) -> Result<(), Fail>
    requires held { closed.old.held.items ≡ [] }
    requires waiting { waiting_of waiting.old ≡ [] }
{
    let mut pending = None;
    deliver_all(rt, alloc, closed, waiting, &mut pending)
}

#[test]
fn deliveries_settle(rt: HostRuntime) -> Result<(), Fail> {
    let mut closed = SampleSet::new(rt.alloc());
    let mut waiting = BTreeMap::new(rt.alloc());
    from_nothing(&rt, rt.alloc(), &mut closed, &mut waiting)
}
