//! How many keys have hashes that end alike.

use std::alloc::Global;
use std::hash::{BuildHasher, Hash};

/// How many keys may have any hashes.
const FEW_KEYS: usize = 16;

/// How many endings there are at first.
const FIRST_ENDINGS: usize = 32;

/// For how many keys there is an ending. So counts are in the processor's cache.
const KEYS_OF_ENDING: usize = 8;

/// How many keys may have the same ending at first, which is more than ever do by chance.
const FIRST_MOST: u8 = 32;

/// How many more may have the same once endings are a bit longer.
const MORE: u8 = 8;

/// For each ending of a hash, how many keys have it. A map begins to look for a key at a place that
/// the last bits of its hash choose, so where few keys have the same ending, it looks at few.
#[derive(Drop)]
pub(crate) struct Crowds {
    /// As many as a power of two.
    counts: Vec<u8>,
    /// How many keys may have the same ending.
    most: u8,
}

impl Crowds {
    /// No key is counted yet.
    pub fn new(alloc: Global) -> Self {
        Crowds {
            counts: Vec::new(alloc),
            most: FIRST_MOST,
        }
    }

    /// Forgets all keys.
    pub fn clear(&mut self) {
        self.counts.clear();
        self.most = FIRST_MOST;
    }

    /// Counts a key that is to go into a map of n keys; not where too many have its ending.
    pub fn admit<K: Hash, S: BuildHasher>(&mut self, key: &K, hasher: &S, keys: usize) -> bool {
        if keys < FEW_KEYS {
            return true;
        }
        if self.counts.len() <= keys / KEYS_OF_ENDING {
            self.lengthen_endings();
        }
        let hash = hasher.hash_one(key);
        let last_bits = (self.counts.len() as u64).wrapping_sub(1);
        let ending = (hash ^ (hash >> 32)) & last_bits;
        let most = self.most;
        match self.counts.get_mut(ending as usize) {
            Some(count) if *count < most => {
                *count = count.saturating_add(1);
                true
            }
            Some(_) => false,
            None => true,
        }
    }

    /// Makes endings one bit longer. Which bit a key has there isn't known, so it counts for both.
    /// Out of memory leaves endings as they are, so that more keys have the same.
    fn lengthen_endings(&mut self) {
        let lengthened = if self.counts.is_empty() {
            self.counts.resize(FIRST_ENDINGS, 0)
        } else {
            self.counts.extend_from_within(..)
        };
        if lengthened.is_ok() && self.counts.len() > FIRST_ENDINGS {
            self.most = self.most.saturating_add(MORE);
        }
    }
}
