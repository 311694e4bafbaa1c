//! The versions of keys that processes saw last.

ghost use Rattle.std.specs.Prelude.{◌≡◌, ◌<◌, ◌≤◌, ℕ, length, None, IfOk, IfSome, OnOk};
ghost use Rattle.key_versions.specs.LastSeen.{hash_of, index_from, index_of, last_seen, seen_with};

use crate::rows::number_of;
use std::alloc::{AllocError, Global};
use std::marker::Model;

/// What a process last read or wrote of a key, by the nil version of the key.
#[derive(Clone, Copy, Debug, PartialEq, Eq)]
pub(crate) struct Seen {
    process: u64,
    nil: u32,
    version: u32,
    /// The index of the next older entry with the same hash, counted from 1; 0 if there is none.
    next: u32,
}

/// The version of each key that each process saw last.
pub(crate) struct LastSeen {
    alloc: Global,
    seen: Vec<Seen>,
    /// For each hash the index of the newest entry, counted from 1; 0 if there is none.
    newest: Vec<u32>,
}

// By hand: a derived drop is inlined at every exit, which slows the prover (CONTRIBUTING.md).
impl Drop for LastSeen {
    fn drop(self) {
        let LastSeen {
            alloc: _,
            seen: _,
            newest: _,
        } = self;
    }
}

impl Model for LastSeen {
    ghost use Rattle.key_versions.specs.LastSeen.{linked_by, AreLinked, Linked};

    ghost Value = { Linked };

    ghost view = { λ l. linked_by l.seen.items l.newest.items };

    ghost invariant = { λ l. AreLinked l.seen.items l.newest.items };
}

/// A hash below n of a process and a key. Near numbers have near hashes: such processes and keys
/// mostly come at the same time, so their entries had better be near each other, too.
fn hash_below(n: usize, process: u64, nil: u32) -> usize
    requires { 0 < n }
    ensures value { result ≡ hash_of process nil n }
    ensures below { result < n }
{
    let word = u64::from(nil).wrapping_mul(32).wrapping_add(process);
    (word ^ (word >> 17)) as usize & (n - 1)
}

impl LastSeen {
    /// Entries of no processes, with room for as many as n transactions mostly make.
    pub fn with_capacity(alloc: Global, transactions: usize) -> Result<Self, AllocError>
        ensures { IfOk result (λ last. (process nil : ℕ) → last_seen last process nil ≡ None) }
    {
        let hashes = transactions.max(1).min(1 << 32).next_power_of_two();
        LastSeen::with_hashes(alloc, hashes, transactions / 2)
    }

    /// Entries of no processes, in a table with this many hashes and with room for this many
    /// versions.
    fn with_hashes(alloc: Global, hashes: usize, versions: usize) -> Result<Self, AllocError>
        requires { 0 < hashes }
        ensures { IfOk result (λ last. (process nil : ℕ) → last_seen last process nil ≡ None) }
    {
        Ok(LastSeen {
            alloc,
            seen: Vec::with_capacity(alloc, versions)?,
            newest: vec![in alloc; 0; hashes]?,
        })
    }

    /// The index of what a process saw of a key, among the entries that are linked from the first
    /// one on.
    fn find_from(&self, first: u32, process: u64, nil: u32) -> Option<usize>
        requires { first ≤ length self.now.seen }
        ensures { result ≡ index_from first first process nil self.now.seen }
    {
        let mut place = first as usize;
        while place > 0 {
            let seen = self.seen[place - 1];
            if seen.process == process && seen.nil == nil {
                return Some(place - 1);
            }
            place = (seen.next as usize).min(place - 1);
        }
        None
    }

    /// The index of what a process saw of a key.
    fn find(&self, process: u64, nil: u32) -> Option<usize>
        ensures index { result ≡ index_of self.now process nil }
        ensures within { IfSome result (λ index. index < length self.now.seen) }
    {
        let hash = hash_below(self.newest.len(), process, nil);
        self.find_from(self.newest[hash], process, nil)
    }

    /// Adds what a process saw of a key of which it saw no version before.
    fn add(&mut self, process: u64, nil: u32, version: u32) -> Result<(), AllocError>
        requires { last_seen self.old process nil ≡ None }
        ensures { OnOk result ((one key : ℕ) → last_seen self.new one key
            ≡ seen_with process nil version one key (last_seen self.old one key)) }
    {
        let place = number_of(self.seen.len() + 1)?;
        let hash = hash_below(self.newest.len(), process, nil);
        self.seen.push(Seen {
            process,
            nil,
            version,
            next: self.newest[hash],
        })?;
        self.newest[hash] = place;
        Ok(())
    }

    /// What was seen, in a table with twice as many hashes.
    fn grown(&self) -> Result<Self, AllocError>
        ensures { IfOk result (λ grown. (process nil : ℕ) → last_seen grown process nil
            ≡ last_seen self.now process nil) }
    {
        let hashes = self.newest.len().saturating_mul(2);
        let versions = self.seen.len().saturating_mul(2);
        let mut grown = LastSeen::with_hashes(self.alloc, hashes, versions)?;
        for seen in &self.seen {
            grown.add(seen.process, seen.nil, seen.version)?;
        }
        Ok(grown)
    }

    /// Doubles the table if there are twice as many versions as hashes, so that few versions have
    /// the same hash.
    fn make_room(&mut self) -> Result<(), AllocError>
        ensures { OnOk result ((process nil : ℕ) → last_seen self.new process nil
            ≡ last_seen self.old process nil) }
    {
        if self.seen.len() / 2 >= self.newest.len() {
            *self = self.grown()?;
        }
        Ok(())
    }

    /// Notes that the process now saw this version of the key, and returns the one that it saw last
    /// before.
    pub fn replace(
        &mut self,
        process: u64,
        nil: u32,
        version: u32,
    ) -> Result<Option<u32>, AllocError>
        ensures before { IfOk result (λ before. before ≡ last_seen self.old process nil) }
        ensures last { OnOk result ((one key : ℕ) → last_seen self.new one key
            ≡ seen_with process nil version one key (last_seen self.old one key)) }
    {
        if let Some(index) = self.find(process, nil) {
            let seen = &mut self.seen[index];
            let before = seen.version;
            seen.version = version;
            return Ok(Some(before));
        }
        self.make_room()?;
        self.add(process, nil, version)?;
        Ok(None)
    }
}
