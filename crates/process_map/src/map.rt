//! A map from the numbers of processes to values.

ghost use Rattle.std.specs.Prelude.{◌≡◌, ℕ, Some, None, OnOk, OnErr, nat_eq};
ghost use Rattle.std.specs.HashMap.{get, Updates};
ghost use Rattle.process_map.specs.Values.{value_of, ChangesOnly};

use std::alloc::{AllocError, Global};
use std::collections::HashMap;
use std::marker::Model;

/// How many process numbers are small.
const SMALL: u64 = 16_384;

/// A value for each of some processes.
///
/// Small numbers, which most processes have, are looked up in a table that grows to the largest of
/// them; the others are looked up by their hash.
pub struct ProcessMap<V> {
    small: Vec<Option<V>>,
    large: HashMap<u64, V>,
}

// Written out, as what is derived is repeated wherever one is dropped.
impl<V: Drop> Drop for ProcessMap<V> {
    fn drop(self) {
        let ProcessMap { small: _, large: _ } = self;
    }
}

impl<V> Model for ProcessMap<V> {
    ghost use Rattle.std.specs.Prelude.{ℕ, List};
    ghost use Rattle.process_map.specs.Values.{entries_of};

    ghost Value = { List (ℕ × V) };

    ghost view = { λ map. entries_of map.small.items map.large };
}

impl<V> ProcessMap<V> {
    /// No process has a value.
    pub fn new(alloc: Global) -> Self
        ensures { (p : ℕ) → value_of result p ≡ None }
    {
        ProcessMap {
            small: Vec::new(alloc),
            large: HashMap::new(alloc),
        }
    }
}

/// The value of a process in the map, if it has one.
#[inline(never)]
fn value_of_large<V: Copy>(large: &HashMap<u64, V>, process: u64) -> Option<V>
    ensures { result ≡ get nat_eq large.now process }
{
    large.get(&process).copied()
}

/// Takes the value of a process out of the map.
#[inline(never)]
fn remove_large<V: Copy>(large: &mut HashMap<u64, V>, process: u64)
    ensures { Updates nat_eq large.old large.new process None }
{
    large.remove(&process);
}

impl<V: Copy> ProcessMap<V> {
    /// The value of a process, if it has one.
    #[inline(always)]
    pub fn get(&self, process: u64) -> Option<V>
        ensures { result ≡ value_of self.now process }
    {
        if process < SMALL {
            self.small.get(process as usize).copied().flatten()
        } else {
            value_of_large(&self.large, process)
        }
    }

    /// Gives a process a value, in place of the one that it had. Out of memory leaves the values as
    /// they are.
    #[inline(always)]
    pub fn insert(&mut self, process: u64, value: V) -> Result<(), AllocError>
        ensures ok { OnOk result (ChangesOnly self.old self.new process (Some value)) }
        ensures err { OnErr result ((p : ℕ) → value_of self.new p ≡ value_of self.old p) }
    {
        let place = process as usize;
        if process < SMALL && place < self.small.len() {
            self.small[place] = Some(value);
            return Ok(());
        }
        self.grow_and_insert(process, value)
    }

    /// The same where the process has no place in the table yet, or is not small.
    #[inline(never)]
    fn grow_and_insert(&mut self, process: u64, value: V) -> Result<(), AllocError>
        ensures ok { OnOk result (ChangesOnly self.old self.new process (Some value)) }
        ensures err { OnErr result ((p : ℕ) → value_of self.new p ≡ value_of self.old p) }
    {
        if process < SMALL {
            let place = process as usize;
            if place >= self.small.len() {
                self.small.resize(place + 1, None)?;
            }
            self.small[place] = Some(value);
        } else {
            self.large.insert(process, value)?;
        }
        Ok(())
    }

    /// Takes the value of a process, if it has one.
    #[inline(always)]
    pub fn remove(&mut self, process: u64) -> Option<V>
        ensures value { result ≡ value_of self.old process }
        ensures others { ChangesOnly self.old self.new process None }
    {
        let value = self.get(process)?;
        if process < SMALL {
            self.small[process as usize] = None;
        } else {
            remove_large(&mut self.large, process);
        }
        Some(value)
    }
}
