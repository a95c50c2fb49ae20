//! Counting nulls among texts before they are written, so that a run of them costs a few steps however long it is.
ghost use Rattle.std.specs.Prelude.{◌+◌, ◌<◌, ◌≤◌, ◌++◌, ◌∷◌, ◌^◌, [], List, ℕ, Option, None, option_map, length, IfSome, OnOk};
ghost use Rattle.am_opcols.specs.Counting.{Counts};

use am_fields::TextWriter;
use std::alloc::AllocError;

/// Counts a null, or else writes the nulls that were counted, and the text.
pub fn count_text(
    writer: &mut TextWriter,
    nulls: &mut u64,
    text: Option<&str>,
) -> Result<(), AllocError>
    requires room { IfSome writer.old (λ ys. length ys + nulls.old < 2 ^ 32) }
    requires few { nulls.old < 2 ^ 32 }
    ensures few { OnOk result (nulls.new ≤ nulls.old + 1) }
    ensures counts { OnOk result ((xs : List (Option (List ℕ))) → Counts xs writer.old None nulls.old → Counts (xs ++ option_map (λ s. s.now) text.entry ∷ []) writer.new None nulls.new) }
{
    if text.is_none() {
        *nulls += 1;
        return Ok(());
    }
    writer.push_alike(None, *nulls)?;
    writer.push(text)?;
    *nulls = 0;
    Ok(())
}
