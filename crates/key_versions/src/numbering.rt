//! Numbers for versions: an interner of pairs of a key and a value.

ghost use Rattle.std.specs.Prelude.{◌≡◌, ◌<◌, ◌+◌, ◌∷◌, slice_get, [], true, Some, length, IfOk, IfSome, OnOk, None};
ghost use Rattle.atom_index.specs.Numbers.{AreNumbered, number_in, with_item};
ghost use Rattle.hist_types.specs.Atoms.{atom_eq};
ghost use Rattle.hist_types.specs.Journal.{writes_of};
ghost use Rattle.hist_types.specs.Transactions.{Version, version_eq};
ghost use Rattle.hist_types.specs.Versions.{nil_of};
ghost use Rattle.edn_ops.specs.Shapes.{is_write};
ghost use Rattle.key_versions.specs.Histories.{named_by};
ghost use Rattle.key_versions.specs.Numbering.{Numbers, key_at, version_by, version_with, versions_in, versions_of, AreInRange, with_versions, IsAccess, IsAccessIfAny, IsVersionOfKey};
ghost use Rattle.key_versions.specs.Named.{version_named, IsNamed};
ghost use Rattle.key_versions.specs.Given.{AreGiven, HasNumber, HaveNumbers};
ghost use Rattle.key_versions.specs.declared.write_numbers.WriteNumbers.TheVariants.{Consecutive};
ghost use Rattle.key_versions.specs.TxnAccesses.{AreAccessesOf, AreSeenBy};

use crate::accessed::Accessed;
use crate::nils::{add_nils, nil_number};
use crate::pending::Access;
use crate::rows::number_of;
use crate::write_numbers::WriteNumbers;
use atom_index::atoms::AtomIndex;
use atom_index::pairs::PairIndex;
use hist_types::types::KeyOrder;
use journal_core::written::{Written, WrittenTables};
use op_view::atom::Atom;
use op_view::mops::Mop;
use std::alloc::{AllocError, Global};
use std::hash::{BuildHasher, BuildHasherDefault, FoldHasher};
use std::marker::Model;
use txn_pairs::types::{Status, Txn};

/// Numbers versions: first those that were written, if the journal numbered them, with the nil
/// versions of their keys, and then in the order in which they are first named, each after the nil
/// version of its key.
pub(crate) struct Numbering<'a, S: BuildHasher> {
    keys: AtomIndex<'a, S>,
    values: AtomIndex<'a, S>,
    /// The key and the value of each version, by their numbers.
    pairs: PairIndex<S>,
    /// The nil version of each key, if it has a number.
    nils: Vec<Option<u32>>,
}

// By hand: a derived drop is inlined at every exit, which slows the prover (CONTRIBUTING.md).
impl<'a, S: BuildHasher + Drop> Drop for Numbering<'a, S> {
    fn drop(self) {
        let Numbering {
            keys: _,
            values: _,
            pairs: _,
            nils: _,
        } = self;
    }
}

impl<'a, S: BuildHasher> Model for Numbering<'a, S> {
    ghost use Rattle.key_versions.specs.Rows.{with_access, with_read};
    ghost use Rattle.key_versions.specs.Numbering.{Numbers, IsNumbering};

    ghost Value = { Numbers };

    ghost view = { λ n. record {
      keys = n.keys.items;
      values = n.values.items;
      pairs = n.pairs.items;
      nils = n.nils.items;
    } };

    ghost invariant = { λ n. IsNumbering n.keys.items n.values.items n.pairs.items n.nils.items };
}

/// The numbered versions, by the numbers of their keys and values.
#[derive(Drop)]
pub(crate) struct Numbered<'a> {
    pub keys: Vec<Atom<'a>>,
    pub values: Vec<Atom<'a>>,
    pub pairs: Vec<(u32, Option<u32>)>,
}

/// The versions that the journal numbered when they were written, in that order, and after them the
/// nil versions of their keys.
pub(crate) fn numbering_of<'a>(
    alloc: Global,
    written: Written<'a>,
) -> Result<Numbering<'a, BuildHasherDefault<FoldHasher>>, AllocError>
    ensures given { IfOk result
        (λ numbering. AreGiven written.entry.items (versions_of numbering)) }
    ensures numbers { IfOk result (λ numbering.
        HaveNumbers (Consecutive 0) (versions_of numbering) written.entry.items) }
{
    let WrittenTables {
        keys,
        values,
        mut pairs,
    } = written.into_tables();
    let mut nils = vec![in alloc; None; keys.len()]?;
    pairs.reserve(keys.len())?;
    add_nils(&mut pairs, &mut nils)?;
    Ok(Numbering {
        keys,
        values,
        pairs,
        nils,
    })
}

/// A copy of the atoms that have numbers.
fn atoms_of<'a, S: BuildHasher>(
    alloc: Global,
    index: &AtomIndex<'a, S>,
) -> Result<Vec<Atom<'a>>, AllocError>
    ensures { IfOk result (λ atoms. atoms.items ≡ index.now.items) }
{
    let mut atoms = Vec::with_capacity(alloc, index.len())?;
    for number in 0..index.len() {
        atoms.push(index.atom(number))?;
    }
    Ok(atoms)
}

impl<'a, S: BuildHasher> Numbering<'a, S> {
    /// Numbers of no versions.
    pub fn new(alloc: Global, hasher: S) -> Self
    where
        S: Copy,
        ensures { versions_of result ≡ [] }
    {
        Numbering {
            keys: AtomIndex::with_hasher(alloc, hasher),
            values: AtomIndex::with_hasher(alloc, hasher),
            pairs: PairIndex::with_hasher(alloc, hasher),
            nils: Vec::new(alloc),
        }
    }

    /// Numbers of no versions, in tables as large as is best for n versions.
    pub fn with_capacity(alloc: Global, hasher: S, versions: usize) -> Result<Self, AllocError>
    where
        S: Copy,
        ensures { IfOk result (λ numbering. versions_of numbering ≡ []) }
    {
        Ok(Numbering {
            keys: AtomIndex::with_hasher(alloc, hasher),
            values: AtomIndex::with_hasher(alloc, hasher),
            pairs: PairIndex::with_capacity_and_hasher(alloc, versions, hasher)?,
            nils: Vec::new(alloc),
        })
    }

    /// How many versions there are.
    pub fn len(&self) -> usize
        ensures { result ≡ length (versions_of self.now) }
    {
        self.pairs.len()
    }

    /// The number of a key.
    fn key(&mut self, key: Atom<'a>) -> Result<u32, AllocError>
        ensures number { IfOk result
            (λ number. number_in atom_eq key.entry self.new.keys ≡ Some number) }
        ensures versions { OnOk result (versions_of self.new ≡ versions_of self.old) }
    {
        if let Some(number) = self.keys.get(&key) {
            return Ok(number);
        }
        self.nils.try_reserve(1)?;
        let number = self.keys.insert(key)?;
        self.nils.push_reserved(None);
        Ok(number)
    }

    /// The nil version of the key with this number.
    fn nil(&mut self, key: u32) -> Result<u32, AllocError>
        requires { key < length self.old.keys }
        ensures versions { OnOk result
            (versions_of self.new
            ≡ with_item version_eq (versions_of self.old)
            (version_with (key_at self.old.keys key) None)) }
        ensures number { IfOk result
            (λ number. slice_get (versions_of self.new) number
            ≡ Some (version_with (key_at self.old.keys key) None)) }
        ensures keys { OnOk result (self.new.keys ≡ self.old.keys) }
    {
        let nil = nil_number(&mut self.pairs, &mut self.nils, key)?;
        Ok(nil)
    }

    /// The version with a value and the key of this number.
    fn version(&mut self, key: u32, value: Atom<'a>) -> Result<u32, AllocError>
        requires { key < length self.old.keys }
        ensures versions { OnOk result
            (versions_of self.new
            ≡ with_item version_eq (versions_of self.old)
            (version_with (key_at self.old.keys key) (Some value.entry))) }
        ensures number { IfOk result
            (λ number. slice_get (versions_of self.new) number
            ≡ Some (version_with (key_at self.old.keys key) (Some value.entry))) }
    {
        let value = self.values.insert(value)?;
        let version = self.pairs.insert(key, Some(value))?;
        Ok(version)
    }

    /// The version with this key and value, where None is nil. Where it has no number, it gets one.
    fn insert(&mut self, key: Atom<'a>, value: Option<Atom<'a>>) -> Result<Access, AllocError>
        ensures versions { OnOk result
            (versions_of self.new
            ≡ with_versions (versions_of self.old)
            (nil_of key.entry ∷ version_with key.entry value.entry ∷ [])) }
        ensures access { IfOk result
            (IsAccess (versions_of self.new) (version_with key.entry value.entry)) }
    {
        let key = self.key(key)?;
        let nil = self.nil(key)?;
        let version = match value {
            None => nil,
            Some(value) => self.version(key, value)?,
        };
        Ok(Access { nil, version })
    }

    /// Whether the micro-operation is of the key and of the value with these numbers, however they
    /// are spelled.
    fn is_of_atoms(&self, key: u32, value: u32, mop: &Mop<'a>) -> bool
        requires key { key < length self.now.keys }
        requires value { value < length self.now.values }
        ensures { result ≡ version_eq
            (version_by self.now.keys self.now.values (key, Some value)) (version_named mop.now) }
    {
        match mop.value() {
            None => false,
            Some(named) => {
                self.keys.atom(key as usize) == mop.key()
                    && self.values.atom(value as usize) == named
            }
        }
    }

    /// Whether the write is of the key and of the value with these numbers. Equal texts are equal
    /// atoms, and only others are parsed.
    fn is_of(&self, key: u32, value: u32, write: &Mop<'a>) -> bool
        requires is_write { is_write write.now ≡ true }
        requires key { key < length self.now.keys }
        requires value { value < length self.now.values }
        ensures { result ≡ version_eq
            (version_by self.now.keys self.now.values (key, Some value)) (version_named write.now) }
    {
        let text = write.text();
        if self.values.atom(value as usize).text() == text.value
            && self.keys.atom(key as usize).text() == text.key
        {
            return true;
        }
        self.is_of_atoms(key, value, write)
    }

    /// The number of the key, if the version with this number is written.
    fn key_of_version(&self, number: u32, write: &Mop<'a>) -> Option<u32>
        requires { is_write write.now ≡ true }
        ensures { IfSome result (λ k. IsVersionOfKey self.now number k (version_named write.now)) }
    {
        let (key, value) = *self.pairs.as_slice().get(number as usize)?;
        let value = value?;
        if self.is_of(key, value, write) {
            Some(key)
        } else {
            None
        }
    }

    /// The version that is written, if it is the one that was written when the transaction was
    /// invoked.
    fn invoked_version(
        &mut self,
        write: &Mop<'a>,
        invoked: Option<&Access>,
    ) -> Result<Option<Access>, AllocError>
        requires distinct { AreNumbered version_eq (versions_of self.old) }
        requires is_write { is_write write.now ≡ true }
        ensures { IfOk result (IsAccessIfAny (versions_of self.old) (versions_of self.new)
            (version_named write.now)) }
    {
        let Some(access) = invoked else {
            return Ok(None);
        };
        let Some(key) = self.key_of_version(access.version, write) else {
            return Ok(None);
        };
        let nil = self.nil(key)?;
        Ok(Some(Access {
            nil,
            version: access.version,
        }))
    }

    /// The version whose number is `place` above the first one.
    fn with_number(&mut self, first: usize, place: usize) -> Result<Access, AllocError>
        requires distinct { AreNumbered version_eq (versions_of self.old) }
        requires within { first + place < length (versions_of self.old) }
        ensures { (v : Version) → slice_get (versions_of self.old) (first + place) ≡ Some v
            → IfOk result (IsNamed (versions_of self.old) (versions_of self.new) v) }
    {
        let pairs = self.pairs.as_slice();
        let number = first + place;
        let (key, _) = pairs[number];
        let nil = self.nil(key)?;
        Ok(Access {
            nil,
            version: number_of(number)?,
        })
    }

    /// The version that a micro-operation names, where None is nil, if it and the nil version of
    /// its key have numbers.
    fn known(&self, mop: &Mop<'a>) -> Option<Access>
        ensures { IfSome result (IsAccess (versions_of self.now) (version_named mop.now)) }
    {
        let key = self.keys.get(&mop.key())?;
        let nil = self.nils[key as usize]?;
        let version = match mop.value() {
            None => nil,
            Some(value) => self.pairs.get(key, Some(self.values.get(&value)?))?,
        };
        Some(Access { nil, version })
    }

    /// The version that a micro-operation names. Where it has no number, it gets one.
    fn named(&mut self, mop: &Mop<'a>) -> Result<Access, AllocError>
        ensures { IfOk result
            (IsNamed (versions_of self.old) (versions_of self.new) (version_named mop.now)) }
    {
        self.insert(mop.key(), mop.value())
    }

    /// The version that is written after n other writes of its transaction. It is looked up only
    /// where its number isn't known.
    fn written(
        &mut self,
        write: &Mop<'a>,
        numbers: WriteNumbers<'_>,
        place: usize,
    ) -> Result<Access, AllocError>
        requires distinct { AreNumbered version_eq (versions_of self.old) }
        requires is_write { is_write write.now ≡ true }
        requires number { HasNumber numbers (versions_of self.old) place (version_named write.now) }
        ensures { IfOk result
            (IsNamed (versions_of self.old) (versions_of self.new) (version_named write.now)) }
    {
        match numbers {
            WriteNumbers::Unknown => self.named(write),
            WriteNumbers::Consecutive(first) => self.with_number(first, place),
            WriteNumbers::Invoked(writes) => match self.invoked_version(write, writes.get(place))? {
                Some(access) => Ok(access),
                None => self.named(write),
            },
        }
    }

    /// The version that a micro-operation names, after n writes of its transaction. What is read
    /// mostly has a number, so that is looked up first.
    fn access(
        &mut self,
        mop: &Mop<'a>,
        numbers: WriteNumbers<'_>,
        place: usize,
    ) -> Result<Access, AllocError>
        requires distinct { AreNumbered version_eq (versions_of self.old) }
        requires number { is_write mop.now ≡ true
            → HasNumber numbers (versions_of self.old) place (version_named mop.now) }
        ensures { IfOk result
            (IsNamed (versions_of self.old) (versions_of self.new) (version_named mop.now)) }
    {
        if mop.is_write() {
            return self.written(mop, numbers, place);
        }
        match self.known(mop) {
            Some(access) => Ok(access),
            None => self.named(mop),
        }
    }

    /// Numbers the versions that a transaction names, and notes which it reads and writes in place
    /// of what was noted. Of a read of a transaction that is not ok, only the nil version of the
    /// key is numbered.
    pub fn take(
        &mut self,
        txn: &Txn<'a>,
        keys: KeyOrder,
        numbers: WriteNumbers<'_>,
        accessed: &mut Accessed,
    ) -> Result<(), AllocError>
        requires distinct { AreNumbered version_eq (versions_of self.old) }
        requires numbers { HaveNumbers numbers (versions_of self.old) (writes_of txn.now.mops) }
        ensures versions { OnOk result
            (versions_of self.new ≡ with_versions (versions_of self.old) (named_by txn.now)) }
        ensures accesses { OnOk result (AreAccessesOf (versions_of self.new) txn.now
            accessed.new.reads.items accessed.new.writes.items) }
        ensures seen { OnOk result (AreSeenBy keys (versions_of self.new) txn.now
            accessed.new.reads.items accessed.new.writes.items accessed.new.seen.items) }
    {
        let is_ok = txn.status() == Status::Ok;
        let keeps_seen = is_ok && keys == KeyOrder::Sequential;
        accessed.clear();
        for mop in txn.mops() {
            let is_write = mop.is_write();
            let is_known = is_ok || is_write;
            if is_known {
                let access = self.access(&mop, numbers, accessed.writes.len())?;
                accessed.add(access, is_write, keeps_seen)?;
            } else {
                let key = self.key(mop.key())?;
                self.nil(key)?;
            }
        }
        Ok(())
    }

    /// A copy of the numbered versions.
    pub fn numbered(&self, alloc: Global) -> Result<Numbered<'a>, AllocError>
        ensures versions { IfOk result (λ n. versions_in n.keys.items n.values.items n.pairs.items
            ≡ versions_of self.now) }
        ensures keys { IfOk result (λ n. AreNumbered atom_eq n.keys.items) }
        ensures in_range { IfOk result
            (λ n. AreInRange n.keys.items n.values.items n.pairs.items) }
    {
        let keys = atoms_of(alloc, &self.keys)?;
        let values = atoms_of(alloc, &self.values)?;
        let mut pairs = Vec::with_capacity(alloc, self.pairs.len())?;
        pairs.extend_from_slice(self.pairs.as_slice())?;
        Ok(Numbered {
            keys,
            values,
            pairs,
        })
    }

    /// The numbered versions. The tables by which they are looked up are freed.
    pub fn finish(self) -> Numbered<'a>
    where
        S: Drop,
        ensures versions { versions_in result.keys.items result.values.items result.pairs.items
            ≡ versions_of self.entry }
        ensures keys { AreNumbered atom_eq result.keys.items }
        ensures in_range { AreInRange result.keys.items result.values.items result.pairs.items }
    {
        let Numbering {
            keys,
            values,
            pairs,
            nils: _,
        } = self;
        Numbered {
            keys: keys.into_atoms(),
            values: values.into_atoms(),
            pairs: pairs.into_pairs(),
        }
    }
}
