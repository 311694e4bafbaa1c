//! Whether what a transaction reads was installed by one that didn't fail.

ghost use Rattle.std.specs.Prelude.{◌≡◌, ℕ, true, false};
ghost use Rattle.hist_types.specs.Transactions.{is_failed};
ghost use Rattle.clean_order.specs.Accesses.{InstallsNumber};
ghost use Rattle.serial_points.specs.Clean.{InstallsUnfailed, has_write, IsClean, AreUnread};
ghost use Rattle.serial_points.specs.KeptPoints.{IsCleanAt};
ghost use Rattle.serial_points.specs.Stepping.{IsUnreadAt};

use crate::places::Places;
use crate::users::Users;
use crate::views::{LiveRun, PointsView};
use clean_order::in_time::is_failed;
use clean_order::updates::has_key;
use key_versions::kept::Access;
use std::hash::BuildHasher;
use txn_pairs::types::{Status, Txn};

/// Whether one of the writes is of the version, and no later one is of its key.
fn installs(writes: &[Access], version: u32) -> bool
    ensures { result ≡ true → InstallsNumber writes.now version }
{
    for i in 0..writes.len() {
        if writes[i].version == version && !has_key(&writes[i + 1..], writes[i].nil) {
            return true;
        }
    }
    false
}

fn has_write(writes: &[Access], version: u32) -> bool
    ensures { result ≡ has_write version writes.now }
{
    writes.iter().any(|write| write.version == version)
}

/// Whether one of the versions that are written was read.
fn was_read(readers: &Places, writes: &[Access]) -> bool
    ensures { result ≡ false → AreUnread readers.now writes.now }
{
    for write in writes {
        let places = readers.at(write.version);
        if places.len() > 0 {
            return true;
        }
    }
    false
}

impl<'r, 'a, S: BuildHasher + Copy> LiveRun<'r, 'a, S> {
    /// Whether nobody read what the transaction at the place writes.
    pub fn is_unread(&self, users: &Users, place: usize) -> bool
        ensures { result ≡ true → IsUnreadAt users.now self.now place }
    {
        !was_read(&users.readers, self.writes(place))
    }
}

impl<'p, 'r, 'a, S: BuildHasher + Copy> PointsView<'p, 'r, 'a, S> {
    fn installs_unfailed(&self, place: usize, version: u32) -> bool
        ensures { result ≡ true
            → InstallsUnfailed self.now.run.txns self.now.run.accesses version place }
    {
        let Some(txn) = self.txn(place) else {
            return false;
        };
        if is_failed(txn) {
            return false;
        }
        installs(self.writes(place), version)
    }

    /// Whether one of the transactions at the places installs the version, and it didn't fail.
    fn is_installed(&self, places: &[u32], version: u32) -> bool
        ensures { result ≡ true → (place : ℕ)
            × InstallsUnfailed self.now.run.txns self.now.run.accesses version place }
    {
        for place in places {
            if self.installs_unfailed(*place as usize, version) {
                return true;
            }
        }
        false
    }

    /// Whether the version that is read is nil, or so installed, or nobody wrote it but the
    /// transaction that reads it, which writes this.
    fn is_clean(&self, own: &[Access], read: Access) -> bool
        ensures { result ≡ true → IsClean self.now.run.txns self.now.run.accesses
            self.now.users.writers own.now read }
    {
        if read.version == read.nil {
            return true;
        }
        let places = self.writers(read.version);
        if places.is_empty() {
            return true;
        }
        if has_write(own, read.version) {
            return true;
        }
        self.is_installed(places, read.version)
    }

    /// Whether each version that the transaction at the place reads is.
    pub fn reads_clean(&self, place: usize) -> bool
        ensures { result ≡ true → IsCleanAt self.now place }
    {
        let own = self.writes(place);
        let reads = self.reads(place);
        for read in reads {
            if !self.is_clean(own, *read) {
                return false;
            }
        }
        true
    }
}
