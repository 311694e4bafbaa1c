//! The certificate of a schedule: one look at each version and at each transaction shows that it
//! keeps a history's edges.
//!
//! Starts and commits are listed as the transactions are. Where each transaction commits when it
//! starts, both lists are the same one.

ghost use Rattle.std.specs.Prelude.{◌≡◌, ◌≤◌, ◌<◌, ◌+◌, ℕ, slice_index, All, IsTrue};
ghost use Rattle.std.specs.Bool.{OnTrue};
ghost use Rattle.hist_types.specs.Transactions.{is_node};
ghost use Rattle.dep_edges.specs.Tables.{IsPlace, IsNumber, txn_at, version_at};
ghost use Rattle.schedules.specs.Schedules.{IsInTime};
ghost use Rattle.clean_order.specs.AtVersions.{StartFirst, writers, counted, KeepsAt, IsListed};
ghost use Rattle.clean_order.specs.Highest.{IsCounted, AreCounted, IsHigher, IsAbove};
ghost use Rattle.clean_order.specs.Listed.{clock, listed, KeepsDependencies, KeepsListed};

use dep_edges::deps::Deps;
use key_versions::types::{Follower, Writer};
use schedules::types::EdgeKinds;
use txn_pairs::types::{Status, Txn};

/// The number of the transaction at the place.
pub fn number_at(numbers: &[u32], place: usize) -> u32
    ensures { result ≡ slice_index numbers.now place }
{
    match numbers.get(place) {
        Some(number) => *number,
        None => 0,
    }
}

/// The highest number of some transactions, whose it is, and the highest number of the others.
#[derive(Clone, Copy)]
struct Highest {
    place: u32,
    first: u32,
    second: u32,
}

impl Highest {
    /// Of no transaction.
    const NONE: Self = Highest {
        place: 0,
        first: 0,
        second: 0,
    };

    /// Counts one more transaction.
    fn with(self, place: u32, number: u32) -> Highest
        ensures one { IsCounted result place number }
        ensures others { (other lower : ℕ)
            → IsCounted self other lower → IsCounted result other lower }
    {
        if number > self.first {
            Highest {
                place,
                first: number,
                second: self.first,
            }
        } else if place == self.place || number <= self.second {
            self
        } else {
            Highest {
                place: self.place,
                first: self.first,
                second: number,
            }
        }
    }

    /// The highest number of the transactions other than this one.
    fn without(&self, place: u32) -> u32
        ensures { (other number : ℕ) → IsCounted self.now other number → ¬ (other ≡ place)
            → number ≤ result }
    {
        if place == self.place {
            self.second
        } else {
            self.first
        }
    }
}

/// The highest of the numbers of transactions.
fn highest_of(numbers: &[u32], places: &[u32]) -> Highest
    ensures { AreCounted result numbers.now places.now }
{
    let mut highest = Highest::NONE;
    for place in places {
        highest = highest.with(*place, number_at(numbers, *place as usize));
    }
    highest
}

/// Whether all but this one have a lower number than the transaction, if it is a node.
fn is_above(deps: &Deps<'_, '_>, numbers: &[u32], highest: &Highest, place: u32) -> bool
    requires { IsPlace deps.now.txns place }
    ensures { OnTrue result (IsAbove deps.now.txns numbers.now highest.now place) }
{
    number_at(numbers, place as usize) > highest.without(place) || !deps.is_node(place as usize)
}

/// The number of who wrote a version, if somebody did, as the highest one.
fn highest_of_writer(numbers: &[u32], writer: Option<Writer>) -> Highest
    ensures { AreCounted result numbers.now (writers writer) }
{
    match writer {
        None => Highest::NONE,
        Some(writer) => Highest {
            place: writer.txn,
            first: number_at(numbers, writer.txn as usize),
            second: 0,
        },
    }
}

/// These transactions, if they count.
fn counted(count: bool, places: &[u32]) -> &[u32]
    ensures { result.now ≡ counted count places.now }
{
    if count { places } else { &[] }
}

/// Whether those that wrote a version commit before the others that read it start.
fn keeps_to_readers(starts: &[u32], written: &Highest, readers: &[u32]) -> bool
    ensures { OnTrue result (All (IsHigher starts.now written.now) readers.now) }
{
    for reader in readers {
        if number_at(starts, *reader as usize) <= written.without(*reader) {
            return false;
        }
    }
    true
}

/// Whether those that wrote a version commit before the others that install one after it start, if
/// these are nodes, and those that read it start before these commit.
fn keeps_to_followers(
    deps: &Deps<'_, '_>,
    starts: &[u32],
    commits: &[u32],
    written: &Highest,
    read: &Highest,
    followers: &[Follower],
) -> bool
    requires { All (λ f. IsPlace deps.now.txns f.txn) followers.now }
    ensures written { OnTrue result
        (All (λ f. IsAbove deps.now.txns starts.now written.now f.txn) followers.now) }
    ensures read { OnTrue result
        (All (λ f. IsAbove deps.now.txns commits.now read.now f.txn) followers.now) }
{
    for follower in followers {
        if !is_above(deps, starts, written, follower.txn)
            || !is_above(deps, commits, read, follower.txn)
        {
            return false;
        }
    }
    true
}

/// Whether ww edges by one version are kept, and wr and rw edges by it where they count.
#[inline(always)]
fn keeps_at(
    deps: &Deps<'_, '_>,
    kinds: EdgeKinds,
    starts: &[u32],
    commits: &[u32],
    number: usize,
) -> bool
    requires { IsNumber deps.now.table number }
    ensures { OnTrue result
        (KeepsAt deps.now kinds starts.now commits.now (version_at deps.now.table number)) }
{
    let history = deps.history();
    let readers = history.readers(number);
    let written = highest_of_writer(commits, history.writer(number));
    let read = highest_of(starts, counted(kinds.rw, readers));
    let followers = history.followers(number);
    keeps_to_readers(starts, &written, counted(kinds.wr, readers))
        && keeps_to_followers(deps, starts, commits, &written, &read, followers)
}

/// Whether dependency edges of these kinds are kept.
#[inline(always)]
fn keeps_dependencies(
    deps: &Deps<'_, '_>,
    kinds: EdgeKinds,
    starts: &[u32],
    commits: &[u32],
) -> bool
    ensures { OnTrue result (KeepsDependencies deps.now kinds starts.now commits.now) }
{
    let history = deps.history();
    for number in 0..history.versions() {
        if !keeps_at(deps, kinds, starts, commits, number) {
            return false;
        }
    }
    true
}

/// Whether no transaction commits before it starts.
fn start_first(starts: &[u32], commits: &[u32]) -> bool
    ensures { OnTrue result (StartFirst starts.now commits.now) }
{
    for (place, start) in starts.iter().enumerate() {
        if *start > number_at(commits, place) {
            return false;
        }
    }
    true
}

/// The highest commit of those that are listed before the index, of which those before the first
/// one commit at this one at most.
fn highest_before(commits: &[u32], ends: &[u32], commit: u32, first: usize, index: usize) -> u32
    ensures most { clock ends.now commits.now first ≤ commit + 1
        → clock ends.now commits.now index ≤ result + 1 }
    ensures commit { commit ≤ result }
{
    let mut highest = commit;
    for k in first..index {
        if let Some(place) = ends.get(k) {
            highest = highest.max(number_at(commits, *place as usize));
        }
    }
    highest
}

/// Whether the transaction's place is listed at the index of its completion, if it is ok.
fn is_listed(ends: &[u32], txn: &Txn<'_>, place: usize) -> bool
    ensures { OnTrue result (IsListed ends.now txn.now place) }
{
    if txn.status() != Status::Ok {
        return true;
    }
    match txn.completion() {
        None => true,
        Some(index) => match ends.get(index as usize) {
            None => false,
            Some(end) => *end as usize == place,
        },
    }
}

/// Whether the transaction has a number above this one, if it is a node.
fn is_later(deps: &Deps<'_, '_>, numbers: &[u32], number: u32, place: usize) -> bool
    requires { IsPlace deps.now.txns place }
    ensures { OnTrue result (IsTrue (is_node deps.now.txns (txn_at deps.now.txns place))
        → number < slice_index numbers.now place) }
{
    number_at(numbers, place) > number || !deps.is_node(place)
}

/// Whether order edges are kept, if they count: each node starts after the commits of those that
/// completed before its invocation.
fn keeps_order(
    deps: &Deps<'_, '_>,
    kinds: EdgeKinds,
    starts: &[u32],
    commits: &[u32],
    ends: &[u32],
) -> bool
    ensures { OnTrue result (IsTrue kinds.order
        → IsInTime deps.now.txns (listed deps.now.txns starts.now commits.now ends.now)) }
{
    if !kinds.order {
        return true;
    }
    let history = deps.history();
    let mut before = 0;
    let mut highest = 0;
    for place in 0..history.txns().len() {
        let txn = history.txn(place);
        let invocation = txn.invocation() as usize;
        highest = highest_before(commits, ends, highest, before, invocation);
        before = before.max(invocation);
        if !is_listed(ends, txn, place) || !is_later(deps, starts, highest, place) {
            return false;
        }
    }
    true
}

/// Whether the schedule keeps the history's edges of these kinds. Its clock is by who completed
/// when.
///
/// It is compiled for each call apart, so that each number is looked up once where both lists are
/// the same one.
#[inline(always)]
pub fn keeps(
    deps: &Deps<'_, '_>,
    kinds: EdgeKinds,
    starts: &[u32],
    commits: &[u32],
    ends: &[u32],
) -> bool
    ensures { OnTrue result (KeepsListed deps.now kinds starts.now commits.now ends.now) }
{
    if !start_first(starts, commits) {
        return false;
    }
    keeps_dependencies(deps, kinds, starts, commits)
        && keeps_order(deps, kinds, starts, commits, ends)
}
