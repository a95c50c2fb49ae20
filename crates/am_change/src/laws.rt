//! What the layers above may rely on. Each function does nothing; its contract is the law.
ghost use Rattle.std.specs.Prelude.{◌≡◌, ◌<◌, ◌^◌, ◌⊎◌, ◌++◌, ℕ, List, Result, Err, length};
ghost use Rattle.std.specs.List.{AllByRecursion};
ghost use Rattle.am_types.specs.declared.Change.{Change};
ghost use Rattle.am_types.specs.declared.Hash.{Hash};
ghost use Rattle.am_types.specs.Fine.{Fine};
ghost use Rattle.am_change.specs.declared.fault.ChangeFault.{ChangeFault};
ghost use Rattle.am_change.specs.declared.fault.ChangeFault.TheVariants.{NoMemory};
ghost use Rattle.am_change.specs.Contents.{contents, hashes_bytes};
ghost use Rattle.am_change.specs.Fronts.{Has32};
ghost use Rattle.am_change.specs.Judgement.{Judges};

/// Two fine changes with the same contents are the same change. The length of the contents fits 64 bits, as all bytes
/// that a program has do.
pub fn contents_tell_changes()
    ensures { (c d : Change) → Fine c → Fine d → length (contents c) < 2 ^ 64 → contents c ≡ contents d → c ≡ d }
{}

/// Contents are judged in one way, want of memory aside. So the contents of a fine change never count as compressed.
pub fn one_judgement()
    ensures { (bytes : List ℕ) (x y : Result Change ChangeFault) → length bytes < 2 ^ 64 → Judges bytes x → Judges bytes y
        → (x ≡ Err NoMemory) ⊎ ((y ≡ Err NoMemory) ⊎ (x ≡ y)) }
{}

/// No bytes begin with two lists of hashes.
pub fn one_hash_list()
    ensures { (xs ys : List Hash) (r s : List ℕ) → AllByRecursion Has32 xs → AllByRecursion Has32 ys
        → hashes_bytes xs ++ r ≡ hashes_bytes ys ++ s → (xs ≡ ys) × (r ≡ s) }
{}
