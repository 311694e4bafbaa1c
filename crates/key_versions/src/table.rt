//! The finished table.

ghost use Rattle.std.specs.Prelude.{◌≡◌, ◌<◌, length, map, IfOk, Some, slice_get};
ghost use Rattle.key_versions.specs.KeyNumbers.{AreKeyNumbers};
ghost use Rattle.key_versions.specs.Numbering.{versions_in};
ghost use Rattle.key_versions.specs.Views.{AreVersions, table_of};

use crate::accesses::Accesses;
use crate::numbering::Numbered;
use crate::pending::{Grouped, Written};
use crate::types::{Follower, VersionRef, Writer};
use flat_groups::groups::Groups;
use hist_types::types::KeyOrder;
use op_view::atom::Atom;
use std::alloc::{AllocError, Global};
use std::marker::Model;

/// The keys of a table's versions, by number.
#[derive(Drop)]
pub struct KeyNumbers {
    /// How many keys there are.
    pub count: usize,
    /// The number of each version's key, by number of version.
    pub of_versions: Vec<usize>,
}

/// The versions that a history names, with what its transactions do with each. Versions go by
/// number, transactions by `place`, their index in the history. No call but `key_numbers` takes
/// memory.
pub struct Versions<'a> {
    order: KeyOrder,
    keys: Vec<Atom<'a>>,
    values: Vec<Atom<'a>>,
    /// The key and the value of each version, by their numbers. None is nil.
    pairs: Vec<(u32, Option<u32>)>,
    writers: Vec<Written>,
    readers: Groups<u32>,
    followers: Groups<Follower>,
    accesses: Accesses,
}

// By hand: a derived drop is inlined at every exit, which slows the prover (CONTRIBUTING.md).
impl Drop for Versions<'_> {
    fn drop(self) {
        let Versions {
            order: _,
            keys: _,
            values: _,
            pairs: _,
            writers: _,
            readers: _,
            followers: _,
            accesses: _,
        } = self;
    }
}

impl<'a> Model for Versions<'a> {
    ghost use Rattle.key_versions.specs.Tables.{Table};
    ghost use Rattle.key_versions.specs.Numbering.{versions_in};
    ghost use Rattle.key_versions.specs.Views.{AreVersions, table_of};

    ghost Value = { Table };

    ghost view = { λ v. table_of v.order (versions_in v.keys.items v.values.items v.pairs.items)
        v.writers.items v.readers v.followers v.accesses };

    ghost invariant = { λ v. AreVersions v.keys.items v.values.items v.pairs.items
        v.writers.items v.readers v.followers };
}

fn key_in(pair: &(u32, Option<u32>)) -> usize
    ensures { result ≡ pair.now.0 }
{
    pair.0 as usize
}

/// The key of each pair.
fn keys_in(alloc: Global, pairs: &[(u32, Option<u32>)]) -> Result<Vec<usize>, AllocError>
    ensures { IfOk result (λ keys. keys.items ≡ map (λ p. p.0) pairs.now) }
{
    pairs.iter().map(key_in).collect(alloc)
}

impl<'a> Versions<'a> {
    /// The table of the versions with these keys and values, and of what is known of each.
    pub(crate) fn new(
        order: KeyOrder,
        numbered: Numbered<'a>,
        known: Grouped,
        accesses: Accesses,
    ) -> Self
        requires { AreVersions numbered.keys.items numbered.values.items numbered.pairs.items
            known.writers.items known.readers known.followers }
        ensures { result ≡ table_of order
            (versions_in
            numbered.entry.keys.items numbered.entry.values.items numbered.entry.pairs.items)
            known.writers.items known.readers known.followers accesses }
    {
        Versions {
            order,
            keys: numbered.keys,
            values: numbered.values,
            pairs: numbered.pairs,
            writers: known.writers,
            readers: known.readers,
            followers: known.followers,
            accesses,
        }
    }

    /// How the versions of each key are ordered.
    pub fn keys(&self) -> KeyOrder
        ensures { result ≡ self.now.keys }
    {
        self.order
    }

    /// How many versions there are.
    pub fn len(&self) -> usize
        ensures { result ≡ length self.now.versions }
    {
        self.pairs.len()
    }

    /// How many transactions the history has.
    pub fn transactions(&self) -> usize
        ensures reads { result ≡ length self.now.reads }
        ensures installs { result ≡ length self.now.installs }
    {
        self.accesses.len()
    }

    /// The number of each version's key.
    pub fn key_numbers(&self, alloc: Global) -> Result<KeyNumbers, AllocError>
        ensures { IfOk result
            (λ keys. AreKeyNumbers self.now.versions keys.count keys.of_versions.items) }
    {
        Ok(KeyNumbers {
            count: self.keys.len(),
            of_versions: keys_in(alloc, self.pairs.as_slice())?,
        })
    }

    /// The version with this number.
    pub fn version(&self, number: usize) -> VersionRef<'a>
        requires { number < length self.now.versions }
        ensures { slice_get self.now.versions number ≡ Some result }
    {
        let (key, value) = self.pairs[number];
        VersionRef::new(
            self.keys[key as usize].copy(),
            match value {
                None => None,
                Some(value) => Some(self.values[value as usize].copy()),
            },
        )
    }

    /// The transaction that wrote the version; none for nil and for what nobody wrote.
    pub fn writer(&self, number: usize) -> Option<Writer>
        requires { number < length self.now.versions }
        ensures { slice_get self.now.writers number ≡ Some result }
    {
        self.writers[number].writer()
    }

    /// The indexes of the ok transactions that read the version externally, in order, each once.
    pub fn readers(&self, number: usize) -> &[u32]
        requires { number < length self.now.versions }
        ensures { slice_get self.now.readers number ≡ Some result.now }
    {
        self.readers.get(number)
    }

    /// The transactions that install a version after this one, in their order.
    pub fn followers(&self, number: usize) -> &[Follower]
        requires { number < length self.now.versions }
        ensures { slice_get self.now.followers number ≡ Some result.now }
    {
        self.followers.get(number)
    }

    /// The numbers of what the transaction at this index reads externally, in order; none where it
    /// is not ok.
    pub fn reads(&self, place: usize) -> &[u32]
        requires { place < length self.now.reads }
        ensures { slice_get self.now.reads place ≡ Some result.now }
    {
        self.accesses.reads(place)
    }

    /// The numbers of what the transaction at this index installs, in order.
    pub fn installs(&self, place: usize) -> &[u32]
        requires { place < length self.now.installs }
        ensures { slice_get self.now.installs place ≡ Some result.now }
    {
        self.accesses.installs(place)
    }
}
