//! The certificate of a replay: transactions are put one after the other, and each read is compared
//! with what was written before.

ghost use Rattle.std.specs.Prelude.{◌≡◌, ◌⊎◌, ◌<◌, ℕ, List, length, map, slice_get, true, Some, All, IfOk, IsTrue};
ghost use Rattle.hist_types.specs.Phenomena.{stray};
ghost use Rattle.hist_types.specs.Transactions.{Transaction, Version};
ghost use Rattle.hist_types.specs.declared.types.KeyOrder.TheVariants.{Basic};
ghost use Rattle.key_versions.specs.Kept.{AreKept};
ghost use Rattle.dep_edges.specs.Histories.{AreOfHistory};
ghost use Rattle.clean_order.specs.Accesses.{updates};
ghost use Rattle.clean_order.specs.CleanReads.{HasNoBadRead};
ghost use Rattle.clean_order.specs.Points.{IsNotBefore, IsNotAfter};
ghost use Rattle.clean_order.specs.Replaying.{is_marked, AreStillMarked, AreUnmarked, IsReadable, AreKeysMarked, AreUpdatedMarked, MarkInstalled, IsReplaying};
ghost use Rattle.clean_order.specs.Shown.{HasSerialSchedule};

use crate::in_time::{POINTS, is_failed, is_not_after, is_not_before};
use crate::updates::{has_key, updates};
use key_versions::kept::{Access, KeptVersions};
use std::alloc::{AllocError, Global};
use std::hash::BuildHasher;
use std::marker::Model;
use txn_pairs::types::{Status, Txn};

/// Versions that are marked, by number.
#[derive(Drop)]
pub(crate) struct Marks {
    marks: Vec<bool>,
}

impl Model for Marks {
    ghost use Rattle.std.specs.Prelude.{Bool, List};

    ghost Value = { List Bool };

    ghost view = { λ m. m.marks.items };
}

impl Marks {
    /// None of n versions is marked.
    fn new(alloc: Global, versions: usize) -> Result<Self, AllocError>
        ensures { IfOk result AreUnmarked }
    {
        Ok(Marks {
            marks: vec![in alloc; false; versions]?,
        })
    }

    pub fn has(&self, version: u32) -> bool
        ensures { result ≡ is_marked self.now version }
    {
        match self.marks.get(version as usize) {
            Some(mark) => *mark,
            None => false,
        }
    }

    /// Marks the version, if there is such a one.
    fn set(&mut self, version: u32) -> bool
        ensures set { result ≡ true → IsTrue (is_marked self.new version) }
        ensures stay { AreStillMarked self.old self.new }
        ensures only { (n : ℕ) → IsTrue (is_marked self.new n)
            → IsTrue (is_marked self.old n) ⊎ (n ≡ version) }
    {
        let index = version as usize;
        if index >= self.marks.len() {
            return false;
        }
        self.marks[index] = true;
        true
    }
}

/// Whether the read is of nil or of a version that was written, which nobody follows.
fn is_readable(written: &Marks, followed: &Marks, read: Access) -> bool
    ensures { result ≡ true → IsReadable written.now followed.now read }
{
    if followed.has(read.version) {
        return false;
    }
    read.version == read.nil || written.has(read.version)
}

/// Whether each one is.
fn are_readable(written: &Marks, followed: &Marks, reads: &[Access]) -> bool
    ensures { result ≡ true → All (IsReadable written.now followed.now) reads.now }
{
    for read in reads {
        if !is_readable(written, followed, *read) {
            return false;
        }
    }
    true
}

/// Marks the version, if the writes update it.
fn mark_if_updated(followed: &mut Marks, read: Access, writes: &[Access]) -> bool
    ensures marked { result ≡ true → IsTrue (updates writes.now read)
        → IsTrue (is_marked followed.new read.version) }
    ensures stay { AreStillMarked followed.old followed.new }
{
    if !updates(writes, read) {
        return true;
    }
    followed.set(read.version)
}

/// Marks each version that is read and updated.
fn mark_updated(followed: &mut Marks, reads: &[Access], writes: &[Access]) -> bool
    ensures marked { result ≡ true → AreUpdatedMarked followed.new reads.now writes.now }
    ensures stay { AreStillMarked followed.old followed.new }
{
    for read in reads {
        if !mark_if_updated(followed, *read, writes) {
            return false;
        }
    }
    true
}

/// Marks the version of the write at the index, if it is the last one of its key.
fn mark_if_last(written: &mut Marks, writes: &[Access], i: usize) -> bool
    requires { i < length writes.now }
    ensures { MarkInstalled written.old written.new writes.now }
{
    if has_key(&writes[i + 1..], writes[i].nil) {
        return true;
    }
    written.set(writes[i].version)
}

/// Marks nil of each key that is written as followed, and the last version that is written of each
/// key as written.
#[inline(always)]
fn mark_writes(written: &mut Marks, followed: &mut Marks, writes: &[Access]) -> bool
    ensures keys { result ≡ true → AreKeysMarked followed.new writes.now }
    ensures stay { AreStillMarked followed.old followed.new }
    ensures written { MarkInstalled written.old written.new writes.now }
{
    for i in 0..writes.len() {
        if !followed.set(writes[i].nil) || !mark_if_last(written, writes, i) {
            return false;
        }
    }
    true
}

/// Whether the point is not before the transaction's invocation and, if it is ok, not after its
/// completion.
fn is_in_time(point: u64, txn: &Txn<'_>) -> bool
    ensures begun { result ≡ true → IsNotBefore point txn.now }
    ensures ended { result ≡ true → IsNotAfter point txn.now }
{
    is_not_before(point, txn) && (txn.status() != Status::Ok || is_not_after(point, txn))
}

/// A replay of a history: the transactions that were put so far, each with a point above those of
/// all that were put before. The points themselves aren't kept.
#[derive(Drop)]
pub(crate) struct Replay {
    /// Who is put, by place.
    put: Vec<bool>,
    /// The versions that those that are put install.
    written: Marks,
    /// The versions that those that are put follow: nil of each key that they write, and what they
    /// read and update.
    followed: Marks,
    /// Above all points.
    next: u64,
}

impl Replay {
    /// None of n transactions is put.
    pub fn new(alloc: Global, txns: usize, versions: usize) -> Result<Self, AllocError>
        ensures { (ts : List Transaction) (versions : List Version)
            → IfOk result (IsReplaying ts versions) }
    {
        Ok(Replay {
            put: vec![in alloc; false; txns]?,
            written: Marks::new(alloc, versions)?,
            followed: Marks::new(alloc, versions)?,
            next: 1,
        })
    }

    /// Whether the transaction at the place is put.
    pub fn is_put(&self, place: usize) -> bool
        ensures { result ≡ is_marked self.now.put.items place }
    {
        match self.put.get(place) {
            Some(put) => *put,
            None => false,
        }
    }

    /// Whether each read is of nil or of a version that one that is put installs, and that none of
    /// them follows.
    #[inline(always)]
    pub fn can_read(&self, reads: &[Access]) -> bool
        ensures { result ≡ true
            → All (IsReadable self.now.written self.now.followed) reads.now }
    {
        are_readable(&self.written, &self.followed, reads)
    }

    /// Whether a transaction that is put installs the version.
    pub fn is_written(&self, version: u32) -> bool {
        self.written.has(version)
    }

    /// Puts no more transactions before the event that completed this one.
    pub fn reach(&mut self, txn: &Txn<'_>)
        ensures { (ts : List Transaction) (versions : List Version)
            → IsReplaying ts versions self.old → IsReplaying ts versions self.new }
    {
        if let Some(index) = txn.completion() {
            self.next = self.next.max(index.saturating_mul(POINTS));
        }
    }

    /// Marks what a transaction that is now put installs and follows.
    fn mark(&mut self, reads: &[Access], writes: &[Access]) -> bool
        ensures put { self.new.put ≡ self.old.put }
        ensures next { self.new.next ≡ self.old.next }
        ensures keys { result ≡ true → AreKeysMarked self.new.followed writes.now }
        ensures updated { result ≡ true → AreUpdatedMarked self.new.followed reads.now writes.now }
        ensures stay { AreStillMarked self.old.followed self.new.followed }
        ensures written { MarkInstalled self.old.written self.new.written writes.now }
    {
        mark_writes(&mut self.written, &mut self.followed, writes)
            && mark_updated(&mut self.followed, reads, writes)
    }

    /// Puts the transaction at the place, which reads this, after all that are put. False if it
    /// can't be put now, or is put already: then this is no replay any more.
    pub fn put<'a, S: BuildHasher + Copy>(
        &mut self,
        txns: &[Txn<'a>],
        versions: &KeptVersions<'a, S>,
        place: usize,
        reads: &[Access],
    ) -> bool
        requires kept { AreKept txns.now versions.now }
        requires place { place < length txns.now }
        requires reads { slice_get (map (λ a. a.reads) versions.now.accesses) place
            ≡ Some reads.now }
        requires readable { All (IsReadable self.old.written self.old.followed) reads.now }
        ensures { result ≡ true → IsReplaying txns.now versions.now.versions self.old
            → IsReplaying txns.now versions.now.versions self.new }
    {
        let txn = &txns[place];
        if is_failed(txn) || !is_in_time(self.next, txn) {
            return false;
        }
        if place >= self.put.len() || self.put[place] {
            return false;
        }
        let Some(next) = self.next.checked_add(1) else {
            return false;
        };
        self.put[place] = true;
        self.next = next;
        self.mark(reads, versions.writes(place))
    }

    /// Whether each ok transaction is put. Then the order in which they were put makes a serial
    /// schedule.
    pub fn finish(&self, txns: &[Txn<'_>]) -> bool
        requires { AreOfHistory txns.now }
        ensures { (versions : List Version) → result ≡ true → IsReplaying txns.now versions self.now
            → HasSerialSchedule Basic txns.now × HasNoBadRead txns.now × (stray txns.now ≡ 0) }
    {
        for (place, txn) in txns.iter().enumerate() {
            if txn.status() == Status::Ok && !self.is_put(place) {
                return false;
            }
        }
        true
    }
}
