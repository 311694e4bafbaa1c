//! Who reads and writes each version, kept while a run goes on.

ghost use Rattle.std.specs.Prelude.{◌≡◌, [], OnOk};
ghost use Rattle.clean_order.specs.Accesses.{updates};
ghost use Rattle.serial_points.specs.Users.{StayListed, ListVersions, ListOnlyVersions, ListKeys, ListUpdated, IsAmongUsers, UsersStay, AreUsers};
ghost use Rattle.serial_points.specs.Passing.{AreUnboundedReaders, HasNilFollowers};

use crate::bounds::Bounds;
use crate::places::Places;
use clean_order::updates::updates;
use key_versions::kept::Access;
use std::alloc::{AllocError, Global};

/// Transactions by place, listed by number of version.
pub(crate) struct Users {
    /// Those that are known to read the version.
    pub readers: Places,
    /// Those that write it.
    pub writers: Places,
    /// By nil version, those that write its key.
    pub key_writers: Places,
    /// Those that read the version and install another one of its key.
    pub updaters: Places,
    /// A bound of the points of those that read the version and don't install another one of its
    /// key.
    pub bounds: Bounds,
    /// By nil version, a bound below the points of those that write its key.
    pub floors: Bounds,
}

// Written out, as what is derived is repeated wherever one is dropped.
impl Drop for Users {
    fn drop(self) {
        let Users {
            readers: _,
            writers: _,
            key_writers: _,
            updaters: _,
            bounds: _,
            floors: _,
        } = self;
    }
}

fn add_versions(lists: &mut Places, place: u32, accesses: &[Access]) -> Result<(), AllocError>
    ensures added { OnOk result (ListVersions lists.new place accesses.now) }
    ensures stay { OnOk result (StayListed lists.old lists.new) }
    ensures only { OnOk result (ListOnlyVersions lists.old lists.new place accesses.now) }
{
    for access in accesses {
        lists.add(access.version, place)?;
    }
    Ok(())
}

fn add_keys(lists: &mut Places, place: u32, accesses: &[Access]) -> Result<(), AllocError>
    ensures added { OnOk result (ListKeys lists.new place accesses.now) }
    ensures stay { OnOk result (StayListed lists.old lists.new) }
{
    for access in accesses {
        lists.add(access.nil, place)?;
    }
    Ok(())
}

fn add_updated(
    lists: &mut Places,
    place: u32,
    reads: &[Access],
    writes: &[Access],
) -> Result<(), AllocError>
    ensures added { OnOk result (ListUpdated lists.new place reads.now writes.now) }
    ensures stay { OnOk result (StayListed lists.old lists.new) }
{
    for read in reads {
        if updates(writes, *read) {
            lists.add(read.version, place)?;
        }
    }
    Ok(())
}

impl Users {
    /// No transaction yet.
    pub fn new(alloc: Global) -> Self
        ensures { AreUsers [] result }
    {
        Users {
            readers: Places::new(alloc),
            writers: Places::new(alloc),
            key_writers: Places::new(alloc),
            updaters: Places::new(alloc),
            bounds: Bounds::new(alloc),
            floors: Bounds::new(alloc),
        }
    }

    /// Adds the transaction at the place, which reads and writes this.
    pub fn add(&mut self, place: u32, reads: &[Access], writes: &[Access]) -> Result<(), AllocError>
        ensures added { OnOk result (IsAmongUsers self.new place reads.now writes.now) }
        ensures stay { OnOk result (UsersStay self.old self.new) }
        ensures only { OnOk result
            (ListOnlyVersions self.old.readers self.new.readers place reads.now) }
        ensures bounds { OnOk result (self.new.bounds ≡ self.old.bounds) }
        ensures floors { OnOk result (self.new.floors ≡ self.old.floors) }
    {
        add_versions(&mut self.readers, place, reads)?;
        add_versions(&mut self.writers, place, writes)?;
        add_keys(&mut self.key_writers, place, writes)?;
        add_updated(&mut self.updaters, place, reads, writes)
    }

    /// Who reads this version, without those that a bound shows to have lower points than this one.
    pub fn unbounded_readers(&self, version: u32, point: u64) -> &[u32]
        ensures { AreUnboundedReaders self.now version point result.now }
    {
        if self.bounds.at(version) < point {
            self.updaters.at(version)
        } else {
            self.readers.at(version)
        }
    }

    /// Who writes the key with this nil version; nobody, where the floor of their points is above
    /// this one.
    pub fn nil_followers(&self, nil: u32, point: u64) -> &[u32]
        ensures { HasNilFollowers self.now nil point result.now }
    {
        if point < self.floors.at(nil) {
            &[]
        } else {
            self.key_writers.at(nil)
        }
    }
}
