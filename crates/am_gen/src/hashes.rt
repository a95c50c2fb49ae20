//! Hashes in ascending order, each once.
ghost use Rattle.std.specs.Prelude.{◌≡◌, ◌++◌, OnOk, IfOk};
ghost use Rattle.std.specs.BTreeSet.{insert_key};
ghost use Rattle.am_types.specs.Order.{hash_cmp};

use am_types::{Hash, List};
use std::alloc::{AllocError, Global};
use std::cmp::Ordering;

// Appends hashes.
fn push_all(all: &mut List<Hash>, others: &[Hash]) -> Result<(), AllocError>
    ensures { OnOk result (all.new ≡ all.old ++ others.now) }
{
    for other in others {
        all.push(*other)?;
    }
    Ok(())
}

// Appends hashes, with one more at its place.
fn push_in_order(all: &mut List<Hash>, others: &[Hash], hash: Hash) -> Result<(), AllocError>
    ensures { OnOk result (all.new ≡ all.old ++ insert_key hash_cmp others.now hash) }
{
    match others.split_first() {
        None => all.push(hash),
        Some((other, more)) => match hash.cmp(other) {
            Ordering::Less => {
                all.push(hash)?;
                push_all(all, others)
            }
            Ordering::Equal => push_all(all, others),
            Ordering::Greater => {
                all.push(*other)?;
                push_in_order(all, more, hash)
            }
        },
    }
}

/// The hashes, with one more at its place unless it is among them.
pub fn hashes_with(alloc: Global, others: &[Hash], hash: Hash) -> Result<List<Hash>, AllocError>
    ensures { IfOk result (λ all. all ≡ insert_key hash_cmp others.now hash) }
{
    let mut all = List::new(alloc);
    push_in_order(&mut all, others, hash)?;
    Ok(all)
}
