//! Where changes stand, by a guess first: whether a guess is right is seen sooner than a hash is looked up.
ghost use Rattle.std.specs.Prelude.{◌≡◌, is_some};
ghost use Rattle.am_graph.specs.Graphs.{is_held, place_in, IsSound};

use crate::node::Node;
use am_types::Hash;
use indexmap::IndexMap;

/// Where the change with the hash stands. It is looked for at the guess first.
pub(crate) fn place_of(held: &IndexMap<Hash, Node>, hash: &Hash, guess: usize) -> Option<usize>
    requires { IsSound held.now.entries }
    ensures index { result ≡ place_in held.now.entries hash.now }
    ensures found { is_some result ≡ is_held held.now.entries hash.now }
{
    if let Some((there, _)) = held.get_index(guess) {
        if there == hash {
            return Some(guess);
        }
    }
    held.get_index_of(hash)
}

/// Where the first of these hashes stands, as a guess for all of them.
pub(crate) fn guess_of(held: &IndexMap<Hash, Node>, hashes: &[Hash]) -> usize
    requires { IsSound held.now.entries }
{
    let last = last_place(held);
    match hashes.first() {
        Some(first) => place_of(held, first, last).unwrap_or(last),
        None => last,
    }
}

/// The place of the change that came last: the first guess for a dependency of the next one.
pub(crate) fn last_place(held: &IndexMap<Hash, Node>) -> usize {
    held.len().saturating_sub(1)
}
