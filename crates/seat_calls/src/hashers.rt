//! Hashers that are counted.

ghost use Rattle.std.specs.Hash.BuildHasherDefault.{initial_hasher};

use std::hash::{BuildHasher, BuildHasherDefault, FoldHasher};
use std::sync::atomic::{AtomicU64, Ordering};

/// Builds the hashers that another one builds, and counts them.
#[derive(Clone, Copy)]
pub struct Counting<'c> {
    hasher: BuildHasherDefault<FoldHasher>,
    built: &'c AtomicU64,
}

impl<'c> Counting<'c> {
    pub fn new(built: &'c AtomicU64) -> Self {
        Counting {
            hasher: BuildHasherDefault::<FoldHasher>::new(),
            built,
        }
    }
}

impl BuildHasher for Counting<'_> {
    type Hasher = FoldHasher;

    ghost build_hasher = { λ counting. initial_hasher counting.hasher };

    fn build_hasher(&self) -> FoldHasher {
        self.built.fetch_add(1, Ordering::SeqCst);
        self.hasher.build_hasher()
    }
}
