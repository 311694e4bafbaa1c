//! What points are looked at by: a run so far, and the points that its transactions may have.

ghost use Rattle.std.specs.Prelude.{◌≡◌, slice_get, slice_index, true, Some, IfSome};
ghost use Rattle.hist_types.specs.Transactions.{Transaction, is_ok};
ghost use Rattle.key_versions.specs.Kept.{AreKept};
ghost use Rattle.key_versions.specs.TxnAccesses.{TxnAccesses};
ghost use Rattle.serial_points.specs.Passing.{AreUnboundedReaders, HasNilFollowers};
ghost use Rattle.serial_points.specs.Stepping.{HasNoInstall, IsNoNode, IsLeftOut};
ghost use Rattle.serial_points.specs.Users.{places_at};
ghost use Rattle.serial_points.specs.Views.{HasAccesses, run_of, view_of};

use crate::bounds::point_of;
use crate::steps::StepLists;
use crate::users::Users;
use key_versions::kept::{Access, KeptVersions};
use std::hash::BuildHasher;
use std::marker::Model;
use txn_pairs::types::{Status, Txn};

/// The transactions of a run so far, by place, with what they read and write, and the steps of its
/// processes.
#[derive(Drop)]
pub(crate) struct LiveRun<'r, 'a, S: BuildHasher> {
    txns: &'r [Txn<'a>],
    versions: &'r KeptVersions<'a, S>,
    lists: &'r StepLists,
}

impl<'r, 'a, S: BuildHasher> Model for LiveRun<'r, 'a, S> {
    ghost use Rattle.key_versions.specs.Kept.{AreKept};
    ghost use Rattle.serial_points.specs.Views.{LiveRun as ARun, run_of};

    ghost Value = { ARun };

    ghost view = { λ r. run_of r.txns.now r.versions.now r.lists.now };

    ghost invariant = { λ r. AreKept r.txns.now r.versions.now };
}

impl<'r, 'a, S: BuildHasher + Copy> LiveRun<'r, 'a, S> {
    pub fn new(txns: &'r [Txn<'a>], versions: &'r KeptVersions<'a, S>, lists: &'r StepLists) -> Self
        requires { AreKept txns.now versions.now }
        ensures { result ≡ run_of txns.now versions.now lists.now }
    {
        LiveRun {
            txns,
            versions,
            lists,
        }
    }

    /// The transaction at the place, if there is one.
    pub fn txn(&self, place: usize) -> Option<&'r Txn<'a>>
        ensures there { IfSome result (λ t. slice_get self.now.txns place ≡ Some t.now) }
        ensures accesses { IfSome result (λ _. HasAccesses self.now place) }
    {
        self.txns.get(place)
    }

    pub fn is_ok(&self, place: usize) -> bool
        ensures { (t : Transaction) → slice_get self.now.txns place ≡ Some t → result ≡ is_ok t }
    {
        match self.txns.get(place) {
            Some(txn) => txn.status() == Status::Ok,
            None => false,
        }
    }

    /// The event that completed the transaction at the place, if there is one.
    pub fn completion(&self, place: usize) -> Option<u64> {
        self.txns.get(place)?.completion()
    }

    /// What the transaction at the place reads, and what it writes; nothing if there is none.
    pub fn reads(&self, place: usize) -> &'r [Access]
        ensures { (a : TxnAccesses) → slice_get self.now.accesses place ≡ Some a
            → result.now ≡ a.reads }
    {
        if place < self.txns.len() {
            self.versions.reads(place)
        } else {
            &[]
        }
    }

    pub fn writes(&self, place: usize) -> &'r [Access]
        ensures { (a : TxnAccesses) → slice_get self.now.accesses place ≡ Some a
            → result.now ≡ a.writes }
    {
        if place < self.txns.len() {
            self.versions.writes(place)
        } else {
            &[]
        }
    }

    /// The versions from which a process went to this one, and those to which it went from there.
    pub fn earlier(&self, version: u32) -> &'r [u32]
        ensures { result.now ≡ places_at self.now.lists.earlier version }
    {
        self.lists.earlier.at(version)
    }

    pub fn later(&self, version: u32) -> &'r [u32]
        ensures { result.now ≡ places_at self.now.lists.later version }
    {
        self.lists.later.at(version)
    }

    /// The steps that the last event added.
    pub fn fresh(&self) -> &'r [(u32, u32)]
        ensures { result.now ≡ self.now.lists.fresh.items }
    {
        self.lists.fresh.as_slice()
    }
}

/// Points that the transactions of a run may have, by place, and who uses each version.
#[derive(Drop)]
pub(crate) struct PointsView<'p, 'r, 'a, S: BuildHasher> {
    points: &'p [u64],
    users: &'p Users,
    run: &'p LiveRun<'r, 'a, S>,
}

impl<'p, 'r, 'a, S: BuildHasher> Model for PointsView<'p, 'r, 'a, S> {
    ghost use Rattle.serial_points.specs.Views.{PointsView as AView, view_of};

    ghost Value = { AView };

    ghost view = { λ v. view_of v.points.now v.users.now v.run.now };
}

impl<'p, 'r, 'a, S: BuildHasher + Copy> PointsView<'p, 'r, 'a, S> {
    pub fn new(points: &'p [u64], users: &'p Users, run: &'p LiveRun<'r, 'a, S>) -> Self
        ensures { result ≡ view_of points.now users.now run.now }
    {
        PointsView { points, users, run }
    }

    /// The point at the place, or 0 if there is none.
    pub fn point(&self, place: usize) -> u64
        ensures { result ≡ slice_index self.now.points place }
    {
        point_of(self.points, place)
    }

    /// Those that read the version, those that write it, and those that read it and install another
    /// one of its key.
    pub fn readers(&self, version: u32) -> &'p [u32]
        ensures { result.now ≡ places_at self.now.users.readers version }
    {
        self.users.readers.at(version)
    }

    pub fn writers(&self, version: u32) -> &'p [u32]
        ensures { result.now ≡ places_at self.now.users.writers version }
    {
        self.users.writers.at(version)
    }

    pub fn updaters(&self, version: u32) -> &'p [u32]
        ensures { result.now ≡ places_at self.now.users.updaters version }
    {
        self.users.updaters.at(version)
    }

    /// Those that read the version, without those that a bound shows to have lower points than this
    /// one.
    pub fn unbounded_readers(&self, version: u32, point: u64) -> &'p [u32]
        ensures { AreUnboundedReaders self.now.users version point result.now }
    {
        self.users.unbounded_readers(version, point)
    }

    /// Those that write the key with this nil version; nobody, where a floor shows them to have
    /// higher points than this one.
    pub fn nil_followers(&self, nil: u32, point: u64) -> &'p [u32]
        ensures { HasNilFollowers self.now.users nil point result.now }
    {
        self.users.nil_followers(nil, point)
    }

    pub fn txn(&self, place: usize) -> Option<&'r Txn<'a>>
        ensures there { IfSome result (λ t. slice_get self.now.run.txns place ≡ Some t.now) }
        ensures accesses { IfSome result (λ _. HasAccesses self.now.run place) }
    {
        self.run.txn(place)
    }

    pub fn is_ok(&self, place: usize) -> bool
        ensures { (t : Transaction) → slice_get self.now.run.txns place ≡ Some t
            → result ≡ is_ok t }
    {
        self.run.is_ok(place)
    }

    pub fn reads(&self, place: usize) -> &'r [Access]
        ensures { (a : TxnAccesses) → slice_get self.now.run.accesses place ≡ Some a
            → result.now ≡ a.reads }
    {
        self.run.reads(place)
    }

    pub fn writes(&self, place: usize) -> &'r [Access]
        ensures { (a : TxnAccesses) → slice_get self.now.run.accesses place ≡ Some a
            → result.now ≡ a.writes }
    {
        self.run.writes(place)
    }

    pub fn earlier(&self, version: u32) -> &'r [u32]
        ensures { result.now ≡ places_at self.now.run.lists.earlier version }
    {
        self.run.earlier(version)
    }

    pub fn later(&self, version: u32) -> &'r [u32]
        ensures { result.now ≡ places_at self.now.run.lists.later version }
    {
        self.run.later(version)
    }

    pub fn fresh(&self) -> &'r [(u32, u32)]
        ensures { result.now ≡ self.now.run.lists.fresh.items }
    {
        self.run.fresh()
    }

    /// Whether the transaction at the place doesn't install the version.
    pub fn has_no_install(&self, place: usize, version: u32) -> bool
        ensures { result ≡ true → HasNoInstall self.now.run version place }
    {
        self.run.has_no_install(place, version)
    }

    pub fn is_no_node(&self, place: usize) -> bool
        ensures { result ≡ true → IsNoNode self.now.users self.now.run place }
    {
        self.run.is_no_node(self.users, place)
    }

    pub fn is_left_out(&self, place: usize, version: u32) -> bool
        ensures { result ≡ true → IsLeftOut self.now.users self.now.run version place }
    {
        self.run.is_left_out(self.users, place, version)
    }
}
