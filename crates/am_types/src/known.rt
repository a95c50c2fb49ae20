//! What Rust's types say of their values. A contract sees bytes as numbers of any size and a hash as a list of any
//! length; these calls, which do nothing when they run, tell a proof what the types allow.
ghost use Rattle.std.specs.Prelude.{All, IsUtf8};
ghost use Rattle.am_types.specs.Bytes.{IsBytes, IsHash};

use crate::hash::Hash;

/// Each byte of a slice is below 256.
pub fn slice_known(bytes: &[u8])
    ensures { IsBytes bytes.now }
{
    let _count = bytes.len();
}

/// A text is UTF-8.
pub fn str_known(text: &str)
    ensures { IsUtf8 text.now }
{
    let _count = text.len();
}

/// A hash has 32 bytes.
pub fn hash_known(hash: &Hash)
    ensures { IsHash hash.now }
{
    slice_known(&hash.0);
}

/// Each hash of a slice has 32 bytes.
pub fn hashes_known(hashes: &[Hash])
    ensures { All IsHash hashes.now }
{
    for hash in hashes {
        hash_known(hash);
    }
}
