//! The path of a walk over elements, as a stack with its top at the end.
ghost use Rattle.std.specs.Prelude.{◌≡◌, ◌∷◌, ◌≤◌, [], take, length, option_map, IfOk, OnOk};
ghost use Rattle.am_types.specs.Views.{id_of, key_of};
ghost use Rattle.am_histories.specs.Walks.{back_to, front, is_on, may_follow, put_on};
ghost use Rattle.am_rebuild.specs.Stops.{path_of};

use am_types::{IdRef, KeyRef, compare_ids, same_key};
use std::alloc::AllocError;

/// A place on the path, and the element that came last behind it.
#[derive(Clone, Copy)]
pub struct StopRef<'a> {
    pub at: KeyRef<'a>,
    pub last: Option<IdRef<'a>>,
}

fn is_open(last: Option<IdRef<'_>>, id: IdRef<'_>) -> bool
    ensures { result ≡ may_follow (option_map id_of last.entry) (id_of id.entry) }
{
    match last {
        Some(last) => compare_ids(id, last).is_lt(),
        None => true,
    }
}

// How many of the stack are left when the key is on top.
fn depth_of(stack: &[StopRef<'_>], key: KeyRef<'_>) -> usize
    ensures within { result ≤ length stack.now }
    ensures back { path_of (take result stack.now) ≡ back_to (key_of key.entry) (path_of stack.now) }
{
    let mut depth = stack.len();
    while depth > 0 {
        if same_key(stack[depth - 1].at, key) {
            return depth;
        }
        depth -= 1;
    }
    depth
}

/// Back to the key.
pub(crate) fn go_back(stack: &mut Vec<StopRef<'_>>, key: KeyRef<'_>)
    ensures { path_of stack.new.items ≡ back_to (key_of key.entry) (path_of stack.old.items) }
{
    let depth = depth_of(stack, key);
    stack.truncate(depth);
}

/// Puts an element behind what is on top, where it may come there; else nothing is left.
pub(crate) fn put<'a>(stack: &mut Vec<StopRef<'a>>, id: IdRef<'a>) -> Result<(), AllocError>
    ensures { OnOk result (path_of stack.new.items ≡ put_on (id_of id.entry) (path_of stack.old.items)) }
{
    match stack.pop() {
        None => Ok(()),
        Some(top) => {
            if is_open(top.last, id) {
                stack.push(StopRef {
                    at: top.at,
                    last: Some(id),
                })?;
                stack.push(StopRef {
                    at: KeyRef::Elem(id),
                    last: None,
                })?;
            } else {
                stack.clear();
            }
            Ok(())
        }
    }
}

/// At the front of an object.
pub(crate) fn restart(stack: &mut Vec<StopRef<'_>>) -> Result<(), AllocError>
    ensures { OnOk result (path_of stack.new.items ≡ front) }
{
    stack.clear();
    stack.push(StopRef {
        at: KeyRef::Head,
        last: None,
    })?;
    Ok(())
}

/// Whether anything is on the stack.
pub(crate) fn is_going(stack: &[StopRef<'_>]) -> bool
    ensures { result ≡ is_on (path_of stack.now) }
{
    !stack.is_empty()
}
