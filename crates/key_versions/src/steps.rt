//! The steps that processes take from one version of a key to another.

ghost use Rattle.std.specs.Prelude.{◌≡◌, ◌++◌, ◌∷◌, ℕ, List, [], Option, None, fold, All, IfOk, OnOk};
ghost use Rattle.std.specs.Option.{unwrap_or};
ghost use Rattle.atom_index.specs.Numbers.{AreNumbered};
ghost use Rattle.flat_groups.specs.Groups.{IsNumbered, groups_from};
ghost use Rattle.hist_types.specs.Transactions.{Transaction, Version, version_eq};
ghost use Rattle.hist_types.specs.declared.types.KeyOrder.TheVariants.{Sequential};
ghost use Rattle.key_versions.specs.LastSeen.{last_seen, seen_with};
ghost use Rattle.key_versions.specs.Steps.{last_number, seen_after, with_first, firsts, step_from, steps_to, AreOfKeys, AreOfSameKeys, AreTaken};
ghost use Rattle.key_versions.specs.Stepped.{AreStepsOf};
ghost use Rattle.key_versions.specs.TxnAccesses.{AreAccessesOf, AreSeenBy};

use crate::last_seen::LastSeen;
use crate::pending::Access;
use crate::rows::has_key;
use flat_groups::groups::Groups;
use std::alloc::{AllocError, Global};
use txn_pairs::types::{Status, Txn};

/// The version that was seen last of the key with this nil version.
fn last_of(seen: &[Access], nil: u32) -> Option<u32>
    ensures { result ≡ last_number nil seen.now }
{
    let mut last = None;
    for access in seen {
        if access.nil == nil {
            last = Some(access.version);
        }
    }
    last
}

/// The steps of processes from one version of a key to another, by number.
#[derive(Drop)]
pub(crate) struct Steps {
    /// The version that a process last read or wrote.
    pub last: LastSeen,
    /// The later and the earlier version of each step. Where processes take the same step, it is
    /// repeated.
    pub taken: Vec<(u32, u32)>,
}

impl Steps {
    /// The steps of no processes, with room for what n transactions mostly do: two steps each.
    pub fn with_capacity(alloc: Global, transactions: usize) -> Result<Self, AllocError>
        ensures last { IfOk result
            (λ steps. (process nil : ℕ) → last_seen steps.last process nil ≡ None) }
        ensures taken { IfOk result (λ steps. steps.taken.items ≡ []) }
    {
        Ok(Steps {
            last: LastSeen::with_capacity(alloc, transactions)?,
            taken: Vec::with_capacity(alloc, transactions.saturating_mul(2))?,
        })
    }

    /// Adds the step of a process from what it last saw of a key to this version, if it is one, and
    /// remembers what it sees last now, which is one of these accesses.
    fn step(&mut self, process: u64, to: Access, seen: &[Access]) -> Result<(), AllocError>
        ensures taken { OnOk result
            (self.new.taken.items
            ≡ self.old.taken.items ++ step_from (last_seen self.old.last process to.nil) to) }
        ensures last { OnOk result
            ((one nil : ℕ) → last_seen self.new.last one nil
            ≡ seen_with process to.nil (unwrap_or (last_number to.nil seen.now) to.version) one nil
            (last_seen self.old.last one nil)) }
    {
        let last = last_of(seen, to.nil).unwrap_or(to.version);
        if let Some(from) = self.last.replace(process, to.nil, last)? {
            if to.version != from && to.version != to.nil {
                self.taken.push((to.version, from))?;
            }
        }
        Ok(())
    }

    /// Adds the steps of a process to what its transaction reads first of each key.
    fn step_to_reads(
        &mut self,
        process: u64,
        reads: &[Access],
        seen: &[Access],
    ) -> Result<(), AllocError>
        requires { AreOfKeys reads.now seen.now }
        ensures { OnOk result (AreTaken process (fold with_first [] reads.now) seen.now
            self.old.taken.items (last_seen self.old.last)
            self.new.taken.items (last_seen self.new.last)) }
    {
        for (i, read) in reads.iter().enumerate() {
            if !has_key(&reads[..i], read.nil) {
                self.step(process, *read, seen)?;
            }
        }
        Ok(())
    }

    /// Adds the steps of a process to what its transaction installs of the keys that it doesn't
    /// read.
    fn step_to_installs(
        &mut self,
        process: u64,
        reads: &[Access],
        writes: &[Access],
        seen: &[Access],
    ) -> Result<(), AllocError>
        requires { AreOfKeys writes.now seen.now }
        ensures { (taken : List (ℕ × ℕ)) (last : ℕ → ℕ → Option ℕ)
            → AreTaken process (fold with_first [] reads.now) seen.now
            taken last self.old.taken.items (last_seen self.old.last)
            → OnOk result (AreTaken process (firsts reads.now writes.now) seen.now
            taken last self.new.taken.items (last_seen self.new.last)) }
    {
        for (i, write) in writes.iter().enumerate() {
            if !has_key(&writes[i + 1..], write.nil) && !has_key(reads, write.nil) {
                self.step(process, *write, seen)?;
            }
        }
        Ok(())
    }

    /// Takes the next ok transaction of a process: its steps lead to what the transaction first
    /// reads of each key, or installs where it doesn't read the key.
    pub fn take_ok(
        &mut self,
        process: u64,
        reads: &[Access],
        writes: &[Access],
        seen: &[Access],
    ) -> Result<(), AllocError>
        requires { AreOfSameKeys seen.now (reads.now ++ writes.now) }
        ensures taken { OnOk result
            (self.new.taken.items
            ≡ self.old.taken.items
            ++ steps_to (last_seen self.old.last process) (firsts reads.now writes.now)) }
        ensures last { OnOk result
            ((one nil : ℕ) → last_seen self.new.last one nil
            ≡ seen_after process seen.now one nil (last_seen self.old.last one nil)) }
    {
        self.step_to_reads(process, reads, seen)?;
        self.step_to_installs(process, reads, writes, seen)?;
        Ok(())
    }

    /// Takes the next transaction, by what it reads and writes. Only an ok one shows what its
    /// process saw.
    pub fn take(
        &mut self,
        txn: &Txn<'_>,
        reads: &[Access],
        writes: &[Access],
        seen: &[Access],
    ) -> Result<(), AllocError>
        requires { (versions : List Version)
            × AreSeenBy Sequential versions txn.now reads.now writes.now seen.now }
        ensures { (versions : List Version) (ts : List Transaction)
            → AreNumbered version_eq versions
            → AreStepsOf versions ts (last_seen self.old.last) self.old.taken.items
            → AreAccessesOf versions txn.now reads.now writes.now
            → AreSeenBy Sequential versions txn.now reads.now writes.now seen.now
            → OnOk result (AreStepsOf versions (ts ++ txn.now ∷ [])
            (last_seen self.new.last) self.new.taken.items) }
    {
        if txn.status() == Status::Ok {
            self.take_ok(txn.process(), reads, writes, seen)?;
        }
        Ok(())
    }

    /// The steps alone. What processes saw is freed.
    fn into_taken(self) -> Vec<(u32, u32)>
        ensures { result.items ≡ self.taken.items }
    {
        let Steps { last: _, taken } = self;
        taken
    }

    /// For each of n versions, the earlier ones of the steps to it.
    pub fn earlier(self, alloc: Global, versions: usize) -> Result<Groups<u32>, AllocError>
        requires { All (IsNumbered versions) self.taken.items }
        ensures { IfOk result (λ groups. groups ≡ groups_from 0 versions self.taken.items) }
    {
        let taken = self.into_taken();
        Groups::of(alloc, versions, taken.as_slice())
    }
}
