//! Tests of am_chain: insertions of which a later one comes first, and one behind an element of greater id.
ghost use Rattle.std.specs.Prelude.{◌≡◌, ◌∷◌, [], IfOk};

use am_chain::{Chain, Insertion};
use am_types::{ActorId, OpId};
use std::alloc::{AllocError, Global};

fn id(alloc: Global, counter: u64, actor: u8) -> Result<OpId, AllocError>
    ensures { IfOk result (λ id. id ≡ record { counter = counter; actor = actor ∷ [] }) }
{
    match ActorId::of(alloc, &[actor]) {
        Ok(actor) => Ok(OpId { counter, actor }),
        Err(_) => Err(AllocError),
    }
}

// The counter of each, and the first byte of its actor.
fn walked(alloc: Global, chain: &Chain) -> Result<Vec<(u64, u8)>, AllocError> {
    let mut found = Vec::new(alloc);
    let mut walk = chain.walk();
    while let Some(id) = walk.next() {
        found.push((id.counter, id.actor.first().copied().unwrap_or(0)))?;
    }
    Ok(found)
}

fn is_expected(alloc: Global, chain: &Chain) -> Result<bool, AllocError> {
    let found = walked(alloc, chain)?;
    Ok(found.as_slice() == &[(2, 0xaa), (4, 0xcc), (4, 0xbb), (3, 0xaa)][..])
}

#[test]
fn greater_ones_are_passed(rt: HostRuntime) -> Result<(), AllocError> {
    let alloc = rt.alloc();
    let mut chain = Chain::new(alloc);
    let first = chain.insert(None, id(alloc, 2, 0xaa)?)?;
    chain.put_behind(Some(first), id(alloc, 5, 0xdd)?)?;
    let last = chain.insert(Some(first), id(alloc, 4, 0xcc)?)?;
    let found = walked(alloc, &chain)?;
    assert_eq!(rt; found.as_slice(), &[(2, 0xaa), (5, 0xdd), (4, 0xcc)][..]);
    assert_eq!(rt; chain.place(last), 2);
    Ok(())
}

#[test]
fn whole_list(rt: HostRuntime) -> Result<(), AllocError> {
    let alloc = rt.alloc();
    let insertions = vec![in alloc;
        Insertion {
            after: None,
            id: id(alloc, 2, 0xaa)?
        },
        Insertion {
            after: Some(0),
            id: id(alloc, 4, 0xbb)?
        },
        Insertion {
            after: Some(0),
            id: id(alloc, 3, 0xaa)?
        },
        Insertion {
            after: Some(0),
            id: id(alloc, 4, 0xcc)?
        },
    ]?;
    let chain = Chain::of(alloc, insertions.as_slice())?;
    assert!(rt; is_expected(alloc, &chain)?);
    Ok(())
}
