//! Numbers for atoms.

ghost use Rattle.std.specs.Prelude.{◌≡◌, ◌≤◌, ◌<◌, ◌+◌, ◌++◌, ◌∷◌, [], length, None, Some, IfSome, IfOk, OnOk, OnErr, slice_get};
ghost use Rattle.hist_types.specs.Atoms.{atom_eq};
ghost use Rattle.indexmap.specs.IndexMap.{get, spare};
ghost use Rattle.atom_index.specs.Numbers.{number_in, with_item};
ghost use Rattle.atom_index.specs.Lookups.{AddsNumber};

use crate::number_map::NumberMap;
use crate::slots::{slot_of, table_of};
use crate::table::{MAX_NUMBERS, Table};
use op_view::atom::Atom;
use std::alloc::{AllocError, Global};
use std::hash::{BuildHasher, BuildHasherDefault, FoldHasher};
use std::marker::Model;

/// Numbers atoms from 0 on, in the order in which they are first inserted.
///
/// The small integers, which are most of the atoms of a history, are looked up in a table that
/// grows with the number of atoms; everything else is looked up by its hash. No number depends on
/// the hasher.
pub struct AtomIndex<'a, S: BuildHasher = BuildHasherDefault<FoldHasher>> {
    alloc: Global,
    /// By number.
    atoms: Vec<Atom<'a>>,
    /// The number of each small integer that has one.
    small: Table,
    /// The numbers of the other atoms.
    others: NumberMap<Atom<'a>, S>,
}

// Written out, as what is derived is repeated wherever one is dropped.
impl<S: BuildHasher + Drop> Drop for AtomIndex<'_, S> {
    fn drop(self) {
        let AtomIndex {
            alloc: _,
            atoms: _,
            small: _,
            others: _,
        } = self;
    }
}

impl<'a, S: BuildHasher> Model for AtomIndex<'a, S> {
    ghost use Rattle.hist_types.specs.Atoms.{Atom as AnAtom};
    ghost use Rattle.atom_index.specs.Numbers.{Index, atom_index_code};

    ghost Value = { Index AnAtom };

    ghost coded = { atom_index_code };

    ghost use Rattle.atom_index.specs.Lookups.{index_in, IsIndexed};

    ghost view = { λ x. index_in x.atoms x.others };

    ghost invariant = { λ x. IsIndexed x.atoms.items x.small x.others };
}

/// The number of an atom in the map, if it is there. It takes a copy, so that callers can keep the
/// atom in registers.
#[inline(never)]
fn number_of_other<S: BuildHasher>(others: &NumberMap<Atom<'_>, S>, atom: Atom<'_>) -> Option<u32>
    ensures { result ≡ get atom_eq others.now atom.entry }
{
    others.get(&atom)
}

/// Puts an atom into the map, where there is room.
#[inline(never)]
fn add_other<'a, S: BuildHasher>(others: &mut NumberMap<Atom<'a>, S>, atom: Atom<'a>, number: u32)
    requires room { 0 < spare others.old }
    requires same { IfSome (get atom_eq others.old atom) (λ n. n ≡ number) }
    ensures adds { AddsNumber atom_eq others.old others.new atom.entry number }
    ensures room { spare others.old ≤ spare others.new + 1 }
{
    others.insert(atom, number);
}

impl<'a> AtomIndex<'a> {
    /// No atom has a number yet.
    pub fn new(alloc: Global) -> Self
        ensures { result.items ≡ [] }
    {
        AtomIndex::with_hasher(alloc, BuildHasherDefault::new())
    }
}

impl<'a, S: BuildHasher> AtomIndex<'a, S> {
    /// No atom has a number yet. Atoms are hashed by `hasher`.
    pub fn with_hasher(alloc: Global, hasher: S) -> Self
        ensures { result.items ≡ [] }
    {
        AtomIndex {
            alloc,
            atoms: Vec::new(alloc),
            small: Table::new(alloc),
            others: NumberMap::with_hasher(alloc, hasher),
        }
    }

    /// The atoms that have a number, in the order of their numbers.
    pub fn into_atoms(self) -> Vec<Atom<'a>>
    where
        S: Drop,
        ensures { result.items ≡ self.entry.items }
    {
        let AtomIndex {
            alloc: _,
            atoms,
            small: _,
            others: _,
        } = self;
        atoms
    }

    /// How many atoms have a number.
    pub fn len(&self) -> usize
        ensures { result ≡ length self.now.items }
    {
        self.atoms.len()
    }

    /// The atom with this number.
    pub fn atom(&self, number: usize) -> Atom<'a>
        requires { number < length self.now.items }
        ensures item { slice_get self.now.items number ≡ Some result }
        ensures number { number_in atom_eq result self.now.items ≡ Some number }
    {
        self.atoms[number].copy()
    }

    /// The number of an atom, if it has one.
    #[inline(always)]
    pub fn get(&self, atom: &Atom) -> Option<u32>
        ensures { result ≡ number_in atom_eq atom.now self.now.items }
    {
        match slot_of(atom, self.small.len()) {
            Some(slot) => self.small.get(slot),
            None => number_of_other(&self.others, atom.copy()),
        }
    }

    /// How many more atoms can be numbered without more memory.
    fn spare(&self) -> usize
        ensures { result ≡ self.now.spare }
    {
        let numbers = MAX_NUMBERS.saturating_sub(self.atoms.len());
        let atoms = self.atoms.capacity() - self.atoms.len();
        let others = self.others.spare();
        numbers.min(atoms.min(others))
    }

    /// Makes room for `additional` more atoms. Out of memory, as where there would be more than
    /// 4,294,967,295 atoms, leaves the atoms as they are, and no less room than before.
    pub fn reserve(&mut self, additional: usize) -> Result<(), AllocError>
        ensures items { self.new.items ≡ self.old.items }
        ensures room { OnOk result (additional ≤ self.new.spare) }
        ensures kept { self.old.spare ≤ self.new.spare }
    {
        let wanted = self.atoms.len().saturating_add(additional);
        if wanted <= self.small.len() && additional <= self.spare() {
            return Ok(());
        }
        self.grow(additional)
    }

    /// Makes room where it isn't known that there is as much, or that the table is large enough.
    #[inline(never)]
    fn grow(&mut self, additional: usize) -> Result<(), AllocError>
        ensures items { self.new.items ≡ self.old.items }
        ensures room { OnOk result (additional ≤ self.new.spare) }
        ensures kept { self.old.spare ≤ self.new.spare }
    {
        self.atoms.try_reserve(additional)?;
        self.others.reserve(additional)?;
        let wanted = self.atoms.len() + additional;
        if wanted > MAX_NUMBERS {
            return Err(AllocError);
        }
        if self.small.len() < wanted {
            let slots = wanted.saturating_mul(2);
            self.small = table_of(self.alloc, &self.atoms, slots)?;
        }
        Ok(())
    }

    /// The number of an atom, which is its first one where it has none yet. Out of memory leaves
    /// the atoms as they are, and no less room than before.
    #[inline(always)]
    pub fn insert(&mut self, atom: Atom<'a>) -> Result<u32, AllocError>
        ensures number { IfOk result
            (λ number. number_in atom_eq atom.entry self.new.items ≡ Some number) }
        ensures items { OnOk result (self.new.items ≡ with_item atom_eq self.old.items atom.entry) }
        ensures err { OnErr result (self.new.items ≡ self.old.items) }
        ensures kept { OnErr result (self.old.spare ≤ self.new.spare) }
    {
        match self.get(&atom) {
            Some(number) => Ok(number),
            None => self.grow_and_push(atom),
        }
    }

    /// Gives an atom that has none the next number, and makes room for it first.
    #[inline(never)]
    fn grow_and_push(&mut self, atom: Atom<'a>) -> Result<u32, AllocError>
        requires { number_in atom_eq atom self.old.items ≡ None }
        ensures number { IfOk result
            (λ number. number_in atom_eq atom.entry self.new.items ≡ Some number) }
        ensures items { OnOk result (self.new.items ≡ self.old.items ++ atom.entry ∷ []) }
        ensures err { OnErr result (self.new.items ≡ self.old.items) }
        ensures kept { OnErr result (self.old.spare ≤ self.new.spare) }
    {
        self.reserve(1)?;
        Ok(self.push(atom))
    }

    /// The same where there is room for one more atom, so that no memory is needed.
    pub fn insert_reserved(&mut self, atom: Atom<'a>) -> u32
        requires { 0 < self.old.spare }
        ensures number { number_in atom_eq atom.entry self.new.items ≡ Some result }
        ensures items { self.new.items ≡ with_item atom_eq self.old.items atom.entry }
        ensures room { self.old.spare ≤ self.new.spare + 1 }
    {
        match self.get(&atom) {
            Some(number) => number,
            None => self.push(atom),
        }
    }

    /// Gives an atom that has none the next number.
    fn push(&mut self, atom: Atom<'a>) -> u32
        requires new { number_in atom_eq atom self.old.items ≡ None }
        requires room { 0 < self.old.spare }
        ensures number { number_in atom_eq atom.entry self.new.items ≡ Some result }
        ensures items { self.new.items ≡ self.old.items ++ atom.entry ∷ [] }
        ensures room { self.old.spare ≤ self.new.spare + 1 }
    {
        let number = self.atoms.len() as u32;
        match slot_of(&atom, self.small.len()) {
            Some(slot) => self.small.set(slot, number),
            None => add_other(&mut self.others, atom.copy(), number),
        }
        self.atoms.push(atom).unwrap();
        number
    }
}
