//! The view at which something is printed.
ghost use Rattle.std.specs.Prelude.{◌≡◌, IfOk};
ghost use Rattle.std.specs.List.{dedup};
ghost use Rattle.am_types.specs.Order.{hash_cmp, sorted_by};
ghost use Rattle.am_types.specs.Same.{same_hash};
ghost use Rattle.am_session.specs.Views.{each_once, view_at};

use am_cache::View;
use am_json::Form;
use am_types::{Hash, List};
use std::alloc::{AllocError, Global};

fn sort_hashes(hashes: &mut Vec<Hash>)
    ensures { hashes.new.items ≡ sorted_by hash_cmp hashes.old.items }
{
    hashes.sort_unstable();
}

fn drop_repeats(hashes: &mut Vec<Hash>)
    ensures { hashes.new.items ≡ dedup same_hash hashes.old.items }
{
    hashes.dedup();
}

// The hashes, ascending, each once.
fn each_once(alloc: Global, hashes: &[Hash]) -> Result<List<Hash>, AllocError>
    ensures { IfOk result (λ list. list ≡ each_once hashes.now) }
{
    let mut all = hashes.to_vec(alloc)?;
    sort_hashes(&mut all);
    drop_repeats(&mut all);
    Ok(List::from(all))
}

/// The view of this form at these hashes, whatever their order and however often each is named.
pub fn view_at(alloc: Global, form: Form, hashes: &[Hash]) -> Result<View, AllocError>
    ensures { IfOk result (λ view. view ≡ view_at form hashes.now) }
{
    let heads = each_once(alloc, hashes)?;
    Ok(View { form, heads })
}
