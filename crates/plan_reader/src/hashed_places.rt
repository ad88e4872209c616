//! Where names are looked for first.
use std::alloc::{AllocError, Global};
use std::hash::{FoldHasher, Hasher};

/// With so many slots for each name, one name of a hundred shares its slot.
const SLOTS_A_NAME: usize = 64;

/// So many are enough for the names of the largest plan.
const MOST_SLOTS: usize = 131_072;

/// A guess at the place of each name, by a hash of its bytes. Of names that share a slot the last is guessed rightly.
/// Whoever asks looks whether the name stands there: no answer rests on the hash.
#[derive(Drop)]
pub(crate) struct HashedPlaces {
    /// Their number is a power of two, so that a few bits of a hash are a slot.
    places: Vec<u32>,
}

// The hash of a name's bytes.
fn hash_of(name: &str) -> u64 {
    let mut hasher = FoldHasher::default();
    hasher.write(name.as_bytes());
    hasher.finish()
}

// The slot of a name among so many.
fn slot_of(name: &str, slots: usize) -> usize {
    hash_of(name) as usize & slots.saturating_sub(1)
}

// How many slots there are for so many names.
fn slots_for(names: usize) -> usize {
    let wanted = names.saturating_mul(SLOTS_A_NAME).min(MOST_SLOTS);
    wanted.checked_next_power_of_two().unwrap_or(MOST_SLOTS)
}

impl HashedPlaces {
    /// The places of these names.
    pub(crate) fn new(alloc: Global, names: &[&str]) -> Result<HashedPlaces, AllocError> {
        let slots = slots_for(names.len());
        let mut places = vec![in alloc; 0; slots]?;
        for (place, name) in names.iter().enumerate() {
            if let Some(slot) = places.get_mut(slot_of(*name, slots)) {
                *slot = u32::try_from(place).unwrap_or(0);
            }
        }
        Ok(HashedPlaces { places })
    }

    /// A place at which the name may stand.
    pub(crate) fn place_of(&self, name: &str) -> usize {
        let slot = slot_of(name, self.places.len());
        self.places.get(slot).copied().unwrap_or(0) as usize
    }
}
