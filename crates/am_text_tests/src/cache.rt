//! Tests of the cache: which of seventeen views are kept, and what counts as a hit.

use am_cache::{Cache, View};
use am_json::Form;
use am_types::{Bytes, Hash, List};
use std::alloc::{AllocError, Global};

// A view at one head.
fn view(alloc: Global, form: Form, head: u8) -> Result<View, AllocError> {
    let mut heads = List::new(alloc);
    heads.push(Hash([head; 32]))?;
    Ok(View { form, heads })
}

fn text(alloc: Global, byte: u8) -> Result<Bytes, AllocError> {
    let mut bytes = Bytes::new(alloc);
    bytes.push_slice(&[byte])?;
    Ok(bytes)
}

// The first byte of the text that is kept.
fn found(cache: &mut Cache, view: &View) -> Option<u8> {
    let text = cache.get(view)?;
    text.as_slice().first().copied()
}

// Reads the views at heads 1 to `last` as a command does: each is looked for, and put where it isn't kept.
fn read_all(alloc: Global, cache: &mut Cache, last: u8) -> Result<(), AllocError> {
    for head in 1..=last {
        let next = view(alloc, Form::Winners, head)?;
        if cache.get(&next).is_none() {
            cache.put(next, text(alloc, head)?)?;
        }
    }
    Ok(())
}

#[test]
fn seventeen_views(rt: HostRuntime) -> Result<(), AllocError> {
    let alloc = rt.alloc();
    let mut cache = Cache::new(alloc)?;
    read_all(alloc, &mut cache, 17)?;
    let first = view(alloc, Form::Winners, 1)?;
    assert_eq!(rt; found(&mut cache, &first), None);
    assert_eq!(rt; cache.hits(), 0);
    let last = view(alloc, Form::Winners, 17)?;
    assert_eq!(rt; found(&mut cache, &last), Some(17));
    assert_eq!(rt; cache.hits(), 1);
    Ok(())
}

#[test]
fn look_is_a_use(rt: HostRuntime) -> Result<(), AllocError> {
    let alloc = rt.alloc();
    let mut cache = Cache::new(alloc)?;
    read_all(alloc, &mut cache, 16)?;
    let first = view(alloc, Form::Winners, 1)?;
    assert_eq!(rt; found(&mut cache, &first), Some(1));
    cache.put(view(alloc, Form::Winners, 17)?, text(alloc, 17)?)?;
    let second = view(alloc, Form::Winners, 2)?;
    assert_eq!(rt; found(&mut cache, &second), None);
    assert_eq!(rt; found(&mut cache, &first), Some(1));
    assert_eq!(rt; cache.hits(), 2);
    Ok(())
}

#[test]
fn forms_and_heads_differ(rt: HostRuntime) -> Result<(), AllocError> {
    let alloc = rt.alloc();
    let mut cache = Cache::new(alloc)?;
    cache.put(view(alloc, Form::Winners, 1)?, text(alloc, 1)?)?;
    let other_form = view(alloc, Form::All, 1)?;
    assert_eq!(rt; found(&mut cache, &other_form), None);
    let other_heads = view(alloc, Form::Winners, 2)?;
    assert_eq!(rt; found(&mut cache, &other_heads), None);
    cache.put(view(alloc, Form::Winners, 1)?, text(alloc, 3)?)?;
    let same = view(alloc, Form::Winners, 1)?;
    assert_eq!(rt; found(&mut cache, &same), Some(3));
    assert_eq!(rt; cache.hits(), 1);
    Ok(())
}
