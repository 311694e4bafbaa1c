//! A map from keys to their numbers.

ghost use Rattle.std.specs.Prelude.{◌≡◌, ◌≤◌, ◌<◌, ◌+◌, ◌↔◌, IsTrue, OnOk, IfSome};
ghost use Rattle.indexmap.specs.IndexMap.{get, spare, index_map_len, IsEmpty, IsUnchanged};
ghost use Rattle.atom_index.specs.Lookups.{AddsNumber};

use crate::crowds::Crowds;
use crate::sorted_map::SortedMap;
use indexmap::IndexMap;
use std::alloc::{AllocError, Global};
use std::hash::{BuildHasher, Hash};
use std::marker::Model;

/// A map from keys to their numbers. A look-up takes little time even where keys were chosen so
/// that their hashes collide: once many hashes end alike, further such keys are looked up by their
/// order.
pub(crate) struct NumberMap<K: Eq + Hash + Ord, S: BuildHasher> {
    hashed: IndexMap<K, u32, S>,
    /// The endings of the hashes of these.
    crowds: Crowds,
    ordered: SortedMap<K>,
}

// Written out, as what is derived is repeated wherever one is dropped.
impl<K: Eq + Hash + Ord + Drop, S: BuildHasher + Drop> Drop for NumberMap<K, S> {
    fn drop(self) {
        let NumberMap {
            hashed: _,
            crowds: _,
            ordered: _,
        } = self;
    }
}

impl<K: Eq + Hash + Ord, S: BuildHasher> Model for NumberMap<K, S> {
    ghost use Rattle.std.specs.Prelude.{ℕ};
    ghost use Rattle.std.specs.Coded.{coded_ℕ};
    ghost use Rattle.indexmap.specs.IndexMap.{IndexMap as Entries};
    ghost use Rattle.indexmap.specs.Layout.{hash_map_code};
    ghost use Rattle.atom_index.specs.Lookups.{map_in};

    ghost Value = { Entries K ℕ S };

    ghost coded = { hash_map_code K.code coded_ℕ S.code };

    ghost view = { λ m. map_in m.hashed m.ordered };
}

impl<K: Eq + Hash + Ord, S: BuildHasher> NumberMap<K, S> {
    /// An empty map that hashes by `hasher`.
    pub fn with_hasher(alloc: Global, hasher: S) -> Self
        ensures { IsEmpty result }
    {
        NumberMap {
            hashed: IndexMap::with_hasher(alloc, hasher),
            crowds: Crowds::new(alloc),
            ordered: SortedMap::new(alloc),
        }
    }

    /// How many keys there are.
    pub fn len(&self) -> usize
        ensures { result ≡ index_map_len self.now }
    {
        self.hashed.len() + self.ordered.len()
    }

    /// Whether there are no keys.
    pub fn is_empty(&self) -> bool
        ensures { IsTrue result ↔ (index_map_len self.now ≡ 0) }
    {
        self.len() == 0
    }

    /// How many more keys can be inserted without more memory.
    pub fn spare(&self) -> usize
        ensures { result ≡ spare self.now }
    {
        self.hashed.capacity() - self.hashed.len()
    }

    /// The number of a key, if it is there.
    #[inline(always)]
    pub fn get(&self, key: &K) -> Option<u32>
        ensures { result ≡ get K.eq self.now key.now }
    {
        match self.hashed.get(key).copied() {
            Some(number) => Some(number),
            None => self.ordered.get(key),
        }
    }

    /// Makes room for `additional` more keys. Out of memory leaves the keys as they are, and no
    /// less room than before.
    pub fn reserve(&mut self, additional: usize) -> Result<(), AllocError>
        ensures entries { IsUnchanged self.old self.new }
        ensures ok { OnOk result (additional ≤ spare self.new) }
        ensures room { spare self.old ≤ spare self.new }
    {
        self.hashed.reserve(additional)
    }
}

impl<K: Eq + Hash + Ord + Drop, S: BuildHasher> NumberMap<K, S> {
    /// Removes all keys, and keeps the room.
    pub fn clear(&mut self)
        ensures empty { IsEmpty self.new }
        ensures room { spare self.old ≤ spare self.new }
    {
        self.hashed.clear();
        self.crowds.clear();
        self.ordered.clear();
    }

    /// Gives a key its number, where there is room. A key that is there already has the same.
    pub fn insert(&mut self, key: K, number: u32)
        requires room { 0 < spare self.old }
        requires same { IfSome (get K.eq self.old key) (λ n. n ≡ number) }
        ensures adds { AddsNumber K.eq self.old self.new key number }
        ensures room { spare self.old ≤ spare self.new + 1 }
    {
        let keys = self.hashed.len();
        if self.crowds.admit(&key, self.hashed.hasher(), keys) {
            self.hashed.insert(key, number).unwrap();
        } else {
            self.insert_ordered(key, number);
        }
    }

    /// The same for a key that isn't to be hashed, unless there is no memory for it elsewhere.
    #[inline(never)]
    fn insert_ordered(&mut self, key: K, number: u32)
        requires room { 0 < spare self.old }
        requires same { IfSome (get K.eq self.old key) (λ n. n ≡ number) }
        ensures adds { AddsNumber K.eq self.old self.new key number }
        ensures room { spare self.old ≤ spare self.new + 1 }
    {
        if self.get(&key).is_some() {
            return;
        }
        if let Err(failed) = self.ordered.insert(key, number) {
            let (key, number) = failed.value;
            self.hashed.insert(key, number).unwrap();
        }
    }
}
