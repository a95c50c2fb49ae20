//! The hash of a chunk.
ghost use Rattle.std.specs.Prelude.{◌≡◌, ◌++◌};
ghost use Rattle.sha2.specs.Sha256.{sha256};

use am_types::Hash;
use sha2::{Digest, Sha256};

// The digest of a message.
pub fn hash_of(message: &[u8]) -> Hash
    ensures { result.0 ≡ sha256 message.now }
{
    Hash(Sha256::digest(message))
}

// The digest of a message that stands in two pieces.
pub fn hash_of_pieces(first: &[u8], second: &[u8]) -> Hash
    ensures { result.0 ≡ sha256 (first.now ++ second.now) }
{
    let mut hasher = Sha256::new();
    hasher.update(first);
    hasher.update(second);
    Hash(hasher.finalize())
}
