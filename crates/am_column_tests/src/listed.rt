//! Tests of where an actor stands in a list that ascends behind the first, and in one that doesn't.
use am_fields::{ListedActors, OwnedActors};
use am_types::{ActorFault, ActorId, List};
use std::alloc::Global;

// Actors of one byte each.
fn actors_of(alloc: Global, bytes: &[u8]) -> Result<List<ActorId>, ActorFault> {
    let mut actors = List::new(alloc);
    for byte in bytes {
        actors.push(ActorId::of(alloc, &[*byte])?)?;
    }
    Ok(actors)
}

#[test]
fn places_among_ascending(rt: HostRuntime) -> Result<(), ActorFault> {
    let actors = actors_of(rt.alloc(), &[0x05, 0x01, 0x02, 0x07])?;
    let listed = ListedActors::of(actors.as_slice());
    assert!(rt; listed.place(&[0x05]) == 0 && listed.place(&[0x01]) == 1);
    assert!(rt; listed.place(&[0x02]) == 2 && listed.place(&[0x07]) == 3);
    assert!(rt; listed.place(&[0x03]) == 4 && listed.place(&[0x09]) == 4);
    Ok(())
}

#[test]
fn places_among_others(rt: HostRuntime) -> Result<(), ActorFault> {
    let actors = actors_of(rt.alloc(), &[0x05, 0x07, 0x01])?;
    let owned = OwnedActors::of(actors);
    let listed = owned.lend();
    assert!(rt; listed.place(&[0x07]) == 1 && listed.place(&[0x01]) == 2);
    assert!(rt; listed.place(&[0x02]) == 3);
    Ok(())
}
