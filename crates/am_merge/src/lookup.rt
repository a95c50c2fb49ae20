//! The places of hashes in a list, for look-ups.
ghost use Rattle.std.specs.Prelude.{◌≡◌, IfOk, map};
ghost use Rattle.am_merge.specs.Places.{place_in, TellsPlaces};

use am_types::{Hash, List};
use std::alloc::{AllocError, Global};
use std::collections::HashMap;
use std::marker::Model;

/// A list of hashes, in which each is found in one look: they are of changes that are held, digests that nobody chooses
/// freely, so they may be hashed. Contracts see the list.
#[derive(Drop)]
pub struct Places<'a> {
    hashes: &'a [Hash],
    by_hash: HashMap<Hash, u64>,
}

impl<'a> Model for Places<'a> {
    ghost use Rattle.std.specs.Prelude.{List};
    ghost use Rattle.am_types.specs.declared.Hash.{Hash};
    ghost use Rattle.am_merge.specs.Places.{TellsPlaces};

    ghost Value = { List Hash };

    ghost view = { λ p. p.hashes.now };

    ghost invariant = { λ p. TellsPlaces p.hashes.now p.by_hash };
}

// The place of each of these hashes, from 0; the first, where a hash stands at more than one.
fn places_of(alloc: Global, hashes: &[Hash]) -> Result<HashMap<Hash, u64>, AllocError>
    ensures { IfOk result (λ places. TellsPlaces hashes.now places) }
{
    let mut places = HashMap::with_capacity(alloc, hashes.len())?;
    let mut i = hashes.len();
    while i > 0 {
        i -= 1;
        places.insert(hashes[i], i as u64)?;
    }
    Ok(places)
}

impl<'a> Places<'a> {
    /// The places in this list.
    pub fn of(alloc: Global, hashes: &'a [Hash]) -> Result<Places<'a>, AllocError>
        ensures { IfOk result (λ places. places ≡ hashes.now) }
    {
        let by_hash = places_of(alloc, hashes)?;
        Ok(Places { hashes, by_hash })
    }

    // The place of this hash in the list, from 0; the length of the list where it isn't there.
    fn place(&self, hash: &Hash) -> u64
        ensures { result ≡ place_in self.now hash.now }
    {
        match self.by_hash.get(hash) {
            Some(place) => *place,
            None => self.hashes.len() as u64,
        }
    }

    /// The places of these hashes.
    pub fn each(&self, alloc: Global, hashes: &[Hash]) -> Result<List<u64>, AllocError>
        ensures { IfOk result (λ places. places ≡ map (λ h. place_in self.now h) hashes.now) }
    {
        let mut places = List::new(alloc);
        for hash in hashes {
            places.push(self.place(hash))?;
        }
        Ok(places)
    }
}
