//! Tests of borrowed forms: they are compared, and copied back.
use am_types::{
    ActorFault, ActorId, IdRef, KeyRef, ObjId, ObjRef, OpId, SharedActors, ValueRef,
    compare_objects, same_id, same_key, same_object,
};
use std::alloc::Global;

fn id(alloc: Global, counter: u64) -> Result<OpId, ActorFault> {
    let actor = ActorId::of(alloc, &[0xaa])?;
    Ok(OpId { counter, actor })
}

#[test]
fn objects_by_id(rt: HostRuntime) -> Result<(), ActorFault> {
    let object = ObjId::Made(id(rt.alloc(), 2)?);
    let made = ObjRef::Made(IdRef {
        counter: 2,
        actor: &[0xaa],
    });
    assert!(rt; compare_objects(ObjRef::Root, made).is_lt());
    assert!(rt; same_object(object.lend(), made));
    assert!(rt; !same_object(object.lend(), ObjRef::Root));
    Ok(())
}

#[test]
fn ids_copied_back(rt: HostRuntime) -> Result<(), ActorFault> {
    let lent = IdRef {
        counter: 2,
        actor: &[0xaa],
    };
    let id = lent.to_owned(rt.alloc())?;
    assert!(rt; same_id(id.lend(), lent));
    let object = ObjRef::Made(lent).to_owned(rt.alloc())?;
    assert!(rt; same_object(object.lend(), ObjRef::Made(lent)));
    Ok(())
}

#[test]
fn keys_copied_back(rt: HostRuntime) -> Result<(), ActorFault> {
    let name = KeyRef::Name("a").to_owned(rt.alloc())?;
    assert!(rt; same_key(name.lend(), KeyRef::Name("a")));
    assert!(rt; !same_key(name.lend(), KeyRef::Head));
    let value = ValueRef { kind: 3, raw: &[1] }.to_owned(rt.alloc())?;
    assert!(rt; value.kind == 3 && value.raw.as_slice() == &[1][..]);
    Ok(())
}

#[test]
fn actors_that_come_again(rt: HostRuntime) -> Result<(), ActorFault> {
    let alloc = rt.alloc();
    let mut actors = SharedActors::new(alloc);
    // Twice through twenty, more than are kept.
    for i in 0..40u8 {
        let byte = i % 20;
        let actor = actors.of(alloc, &[byte, 0xaa])?;
        assert!(rt; actor.as_slice() == [byte, 0xaa].as_slice());
        let again = actors.of(alloc, &[byte, 0xaa])?;
        assert!(rt; actor == again);
    }
    assert!(rt; actors.of(alloc, &[]).is_err());
    Ok(())
}
