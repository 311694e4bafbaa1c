//! Points that fall, and the look at them.

ghost use Rattle.std.specs.Prelude.{◌≡◌, length, true, All};
ghost use Rattle.clean_order.specs.Points.{IsNotBefore, IsNotAfter};
ghost use Rattle.serial_points.specs.Falls.{FallsAt, HaveFallen, PassesAt, PassesUnlessOk, WritersPass, FallsPass, PassesAfter};

use crate::views::PointsView;
use clean_order::in_time::{is_not_after, is_not_before};
use key_versions::kept::Access;
use std::hash::BuildHasher;
use txn_pairs::types::Txn;

/// A point that a transaction gets in place of a higher one.
#[derive(Clone, Copy, Debug, PartialEq, Eq)]
pub(crate) struct Fall {
    pub place: u32,
    pub point: u64,
}

/// Lowers the point at the place, if it isn't lower.
fn lower_one(points: &mut [u64], place: usize, point: u64) -> bool
    ensures length { length points.new ≡ length points.old }
    ensures falls { result ≡ true → FallsAt points.old points.new place }
{
    if place >= points.len() || points[place] < point {
        return false;
    }
    points[place] = point;
    true
}

/// Lowers points, one after the other.
pub(crate) fn lower(points: &mut [u64], falls: &[Fall]) -> bool
    ensures length { length points.new ≡ length points.old }
    ensures fallen { result ≡ true → HaveFallen points.old points.new falls.now (length falls.now) }
{
    for fall in falls {
        if !lower_one(points, fall.place as usize, fall.point) {
            return false;
        }
    }
    true
}

impl<'p, 'r, 'a, S: BuildHasher + Copy> PointsView<'p, 'r, 'a, S> {
    /// Whether the point at the place passes.
    fn passes(&self, place: usize) -> bool
        ensures { result ≡ true → PassesAt self.now place }
    {
        let Some(txn) = self.txn(place) else {
            return false;
        };
        is_not_before(self.point(place), txn)
            && self.passes_into(place, self.reads(place), self.writes(place))
    }

    fn falls_pass(&self, falls: &[Fall]) -> bool
        ensures { result ≡ true → FallsPass self.now falls.now }
    {
        for fall in falls {
            if !self.passes(fall.place as usize) {
                return false;
            }
        }
        true
    }

    fn passes_unless_ok(&self, place: usize) -> bool
        ensures { result ≡ true → PassesUnlessOk self.now place }
    {
        if self.is_ok(place) {
            return true;
        }
        self.passes(place)
    }

    fn all_pass_unless_ok(&self, places: &[u32]) -> bool
        ensures { result ≡ true → All (PassesUnlessOk self.now) places.now }
    {
        for place in places {
            if !self.passes_unless_ok(*place as usize) {
                return false;
            }
        }
        true
    }

    fn writers_pass(&self, reads: &[Access]) -> bool
        ensures { result ≡ true → WritersPass self.now reads.now }
    {
        for read in reads {
            if !self.all_pass_unless_ok(self.writers(read.version)) {
                return false;
            }
        }
        true
    }

    /// Whether points pass after the transaction at the place became ok, and these fell.
    pub fn passes_after(&self, falls: &[Fall], place: usize) -> bool
        ensures { result ≡ true → PassesAfter self.now falls.now place }
    {
        let Some(txn) = self.txn(place) else {
            return false;
        };
        let reads = self.reads(place);
        if !self.passes(place) {
            return false;
        }
        if !is_not_after(self.point(place), txn) {
            return false;
        }
        if !self.passes_out_of(place, reads, self.writes(place)) {
            return false;
        }
        if !self.falls_pass(falls) {
            return false;
        }
        self.writers_pass(reads)
    }
}
