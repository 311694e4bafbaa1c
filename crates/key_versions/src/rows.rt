//! Transactions are added to what is known of each version, over numbers alone.

ghost use Rattle.std.specs.Prelude.{◌≡◌, ◌≤◌, ◌<◌, ◌++◌, ◌∷◌, [], List, length, IfOk, OnOk, All};
ghost use Rattle.atom_index.specs.Numbers.{AreNumbered};
ghost use Rattle.hist_types.specs.Transactions.{Transaction, Version, version_eq};
ghost use Rattle.key_versions.specs.Given.{IsTableBeside};
ghost use Rattle.key_versions.specs.Rows.{has_nil, lasts, written_rows, installed_rows, has_number, read_rows, accessed, rows_after, grown, IsWithin};
ghost use Rattle.key_versions.specs.Steps.{FollowersAreUpTo};
ghost use Rattle.key_versions.specs.TxnAccesses.{AddsNamed, AreAccessesOf};
ghost use Rattle.key_versions.specs.Views.{table_by};

use crate::accesses::Accesses;
use crate::pending::{Access, Pending};
use crate::push::push;
use crate::types::{Follower, Writer};
use std::alloc::{AllocError, Global};

/// An index as a number of 32 bits. A list with more items is out of memory.
pub(crate) fn number_of(place: usize) -> Result<u32, AllocError>
    ensures { IfOk result (λ number. number ≡ place) }
{
    u32::try_from(place).map_err(|_| AllocError)
}

/// Whether one of the accesses is of the key with this nil version.
pub(crate) fn has_key(accesses: &[Access], nil: u32) -> bool
    ensures { result ≡ has_nil nil accesses.now }
{
    accesses.iter().any(|access| access.nil == nil)
}

fn has_version(accesses: &[Access], version: u32) -> bool
    ensures { result ≡ has_number version accesses.now }
{
    accesses.iter().any(|access| access.version == version)
}

/// Adds the writes of a transaction, and lists those that it installs in place of what was listed.
fn add_writes(
    rows: &mut Pending,
    installs: &mut Vec<Access>,
    place: u32,
    writes: &[Access],
) -> Result<(), AllocError>
    requires { All (IsWithin (length rows.old)) writes.now }
    ensures installs { OnOk result (installs.new.items ≡ lasts writes.now) }
    ensures rows { OnOk result (rows.new ≡ written_rows place rows.old writes.now) }
{
    installs.clear();
    for (i, write) in writes.iter().enumerate() {
        let over = has_key(&writes[i + 1..], write.nil);
        rows.write(write.version, Writer { txn: place, over });
        if !over {
            push(installs, *write)?;
        }
    }
    Ok(())
}

/// Adds what a transaction installs after the nil version of each key.
fn add_installs(rows: &mut Pending, place: u32, installs: &[Access]) -> Result<(), AllocError>
    requires within { All (IsWithin (length rows.old)) installs.now }
    requires order { All (FollowersAreUpTo place) rows.old }
    ensures { OnOk result (rows.new ≡ installed_rows place rows.old installs.now) }
{
    for install in installs {
        rows.follow(
            install.nil,
            Follower {
                txn: place,
                version: install.version,
            },
        )?;
    }
    Ok(())
}

/// Adds the reads of a transaction, and what it installs after them.
fn add_reads(
    rows: &mut Pending,
    place: u32,
    reads: &[Access],
    installs: &[Access],
) -> Result<(), AllocError>
    requires within { All (IsWithin (length rows.old)) reads.now }
    requires order { All (FollowersAreUpTo place) rows.old }
    ensures { OnOk result (rows.new ≡ read_rows place installs.now rows.old [] reads.now) }
{
    for (i, read) in reads.iter().enumerate() {
        if !has_version(&reads[..i], read.version) {
            rows.read(place, *read, installs)?;
        }
    }
    Ok(())
}

/// A row for each version, and for each transaction what it reads and installs.
#[derive(Drop)]
pub(crate) struct Rows {
    pub rows: Pending,
    pub accesses: Accesses,
    /// A buffer for what one transaction installs.
    installs: Vec<Access>,
}

impl Rows {
    /// A row for each of n versions, of which nothing is known, with room for this many
    /// transactions.
    pub fn with_capacity(
        alloc: Global,
        transactions: usize,
        versions: usize,
    ) -> Result<Self, AllocError>
        ensures { (given : List Version) → AreNumbered version_eq given → versions ≡ length given
            → IfOk result (λ r. IsTableBeside given [] (table_by given r.rows r.accesses)) }
    {
        let mut rows = Rows {
            rows: Pending::with_capacity(alloc, transactions, versions)?,
            accesses: Accesses::with_capacity(alloc, transactions)?,
            installs: Vec::new(alloc),
        };
        rows.grow(versions)?;
        Ok(rows)
    }

    /// Adds rows until there are as many as versions.
    fn grow(&mut self, versions: usize) -> Result<(), AllocError>
        ensures rows { OnOk result (self.new.rows ≡ grown versions self.old.rows) }
        ensures accesses { OnOk result (self.new.accesses ≡ self.old.accesses) }
    {
        while self.rows.len() < versions {
            self.rows.add()?;
        }
        Ok(())
    }

    /// Adds the accesses of the next transaction.
    fn add(&mut self, reads: &[Access], writes: &[Access]) -> Result<(), AllocError>
        requires reads { All (IsWithin (length self.old.rows)) reads.now }
        requires writes { All (IsWithin (length self.old.rows)) writes.now }
        requires order { All (FollowersAreUpTo (length self.old.accesses)) self.old.rows }
        ensures rows { OnOk result
            (self.new.rows
            ≡ rows_after (length self.old.accesses) reads.now writes.now self.old.rows) }
        ensures accesses { OnOk result
            (self.new.accesses ≡ self.old.accesses ++ accessed reads.now writes.now ∷ []) }
    {
        let place = number_of(self.accesses.len())?;
        add_writes(&mut self.rows, &mut self.installs, place, writes)?;
        let installs = self.installs.as_slice();
        add_installs(&mut self.rows, place, installs)?;
        add_reads(&mut self.rows, place, reads, installs)?;
        self.accesses.push(reads, installs)
    }

    /// Takes the next transaction, by what it reads, if it is ok, and what it writes. There are n
    /// versions now, those that it names among them.
    pub fn take(
        &mut self,
        versions: usize,
        reads: &[Access],
        writes: &[Access],
    ) -> Result<(), AllocError>
        requires { (given : List Version) × (before : List Version) × (after : List Version)
            × (ts : List Transaction) × (t : Transaction)
            × IsTableBeside given ts (table_by before self.old.rows self.old.accesses)
            × AddsNamed before after versions t × AreAccessesOf after t reads.now writes.now }
        ensures { (given before after : List Version) (ts : List Transaction) (t : Transaction)
            → IsTableBeside given ts (table_by before self.old.rows self.old.accesses)
            → AddsNamed before after versions t → AreAccessesOf after t reads.now writes.now
            → OnOk result (IsTableBeside given (ts ++ t ∷ [])
            (table_by after self.new.rows self.new.accesses)) }
    {
        self.grow(versions)?;
        self.add(reads, writes)?;
        Ok(())
    }
}
