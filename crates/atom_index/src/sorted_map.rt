//! A map from keys to their numbers, in the order of the keys.

ghost use Rattle.std.specs.Prelude.{◌≡◌, ◌<◌, ◌^◌, [], length, None, IfOk, IfErr, OnOk, OnErr};
ghost use Rattle.std.specs.Map.{lookup};
ghost use Rattle.atom_index.specs.SortedEntries.{AreSorted, HasKeyAt, IsGapFor, IsWith};

use std::alloc::{AllocFailed, Global};
use std::cmp::Ordering;
use std::marker::Model;

/// The numbers of some keys. A look-up is a binary search, whatever the hashes of the keys are. An
/// insertion moves every greater key.
#[derive(Drop)]
pub(crate) struct SortedMap<K: Ord> {
    /// In the order of the keys.
    entries: Vec<(K, u32)>,
}

impl<K: Ord> Model for SortedMap<K> {
    ghost use Rattle.std.specs.Prelude.{ℕ, List};
    ghost use Rattle.std.specs.Coded.{coded_list, coded×, coded_ℕ};
    ghost use Rattle.atom_index.specs.SortedEntries.{AreSorted};

    ghost Value = { List (K × ℕ) };

    ghost coded = { coded_list (coded× K.code coded_ℕ) };

    ghost view = { λ m. m.entries.items };

    ghost invariant = { λ m. AreSorted K.eq K.cmp m.entries.items };
}

/// The place of a key, or where it would go.
fn search<K: Ord>(entries: &[(K, u32)], key: &K) -> Result<usize, usize>
    requires { AreSorted K.eq K.cmp entries.now }
    ensures found { IfOk result (HasKeyAt K.cmp entries.now key.now) }
    ensures absent { IfErr result (IsGapFor K.cmp entries.now key.now) }
{
    entries.binary_search_by(
        |entry: &(K, u32)| -> Ordering
            ensures { result ≡ K.cmp entry.now.0 key.entry.now }
        { entry.0.cmp(key) },
    )
}

impl<K: Ord> SortedMap<K> {
    /// An empty map.
    pub fn new(alloc: Global) -> Self
        ensures { result ≡ [] }
    {
        SortedMap {
            entries: Vec::new(alloc),
        }
    }

    /// How many keys there are.
    pub fn len(&self) -> usize
        ensures len { result ≡ length self.now }
        ensures small { result < 2 ^ 63 }
    {
        self.entries.len()
    }

    /// The number of a key, if it is there.
    pub fn get(&self, key: &K) -> Option<u32>
        ensures { result ≡ lookup (K.eq key.now) self.now }
    {
        match search(&self.entries, key) {
            Ok(place) => Some(self.entries[place].1),
            Err(_) => None,
        }
    }

    /// Removes all keys.
    pub fn clear(&mut self)
    where
        K: Drop,
        ensures { self.new ≡ [] }
    {
        self.entries.clear();
    }

    /// Gives a key its number, where it has none. Out of memory leaves the map as it is, and the
    /// pair comes back.
    pub fn insert(&mut self, key: K, number: u32) -> Result<(), AllocFailed<(K, u32)>>
    where
        K: Drop,
        requires { lookup (K.eq key) self.old ≡ None }
        ensures ok { OnOk result (IsWith K.eq self.old self.new key number) }
        ensures err { OnErr result (self.new ≡ self.old) }
        ensures value_returned { IfErr result (λ failed. failed.value ≡ (key, number)) }
    {
        let Err(place) = search(&self.entries, &key) else {
            return Ok(());
        };
        self.entries.insert(place, (key, number))
    }
}
