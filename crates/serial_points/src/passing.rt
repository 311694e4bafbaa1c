//! Looks at points that may be next, at one transaction.

ghost use Rattle.std.specs.Prelude.{◌≡◌, true};
ghost use Rattle.clean_order.specs.AtVersions.{IsLowerIfOther};
ghost use Rattle.serial_points.specs.Passing.{AllLower, AllHigher, IsAboveReadersOf, AboveWriters, AboveReaders, AboveNilReaders, PassesInto, BelowReaders, BelowUpdaters, BelowKeyWriters, PassesOutOf};

use crate::views::PointsView;
use clean_order::updates::updates;
use key_versions::kept::Access;
use std::hash::BuildHasher;

impl<'p, 'r, 'a, S: BuildHasher + Copy> PointsView<'p, 'r, 'a, S> {
    /// Whether the first one has a lower point than the second one, if they are two.
    pub fn is_lower_if_other(&self, place: usize, other: usize) -> bool
        ensures { result ≡ true → IsLowerIfOther self.now.points place other }
    {
        place == other || self.point(place) < self.point(other)
    }

    fn are_all_lower(&self, places: &[u32], place: usize) -> bool
        ensures { result ≡ true → AllLower self.now.points places.now place }
    {
        for other in places {
            if !self.is_lower_if_other(*other as usize, place) {
                return false;
            }
        }
        true
    }

    fn are_all_higher(&self, places: &[u32], place: usize) -> bool
        ensures { result ≡ true → AllHigher self.now.points places.now place }
    {
        for other in places {
            if !self.is_lower_if_other(place, *other as usize) {
                return false;
            }
        }
        true
    }

    fn is_above_writers(&self, place: usize, reads: &[Access]) -> bool
        ensures { result ≡ true
            → AboveWriters self.now.points self.now.users.writers place reads.now }
    {
        for read in reads {
            if !self.are_all_lower(self.writers(read.version), place) {
                return false;
            }
        }
        true
    }

    /// Whether the point at the place is above those of all others that read the version.
    pub fn is_above_readers_of(&self, place: usize, version: u32) -> bool
        ensures { result ≡ true
            → IsAboveReadersOf self.now.points self.now.users place version }
    {
        let point = self.point(place);
        self.are_all_lower(self.unbounded_readers(version, point), place)
    }

    fn is_above_readers(&self, place: usize, reads: &[Access], writes: &[Access]) -> bool
        ensures { result ≡ true
            → AboveReaders self.now.points self.now.users place reads.now writes.now }
    {
        for read in reads {
            if updates(writes, *read) && !self.is_above_readers_of(place, read.version) {
                return false;
            }
        }
        true
    }

    fn is_above_nil_readers(&self, place: usize, writes: &[Access]) -> bool
        ensures { result ≡ true
            → AboveNilReaders self.now.points self.now.users place writes.now }
    {
        for write in writes {
            if !self.is_above_readers_of(place, write.nil) {
                return false;
            }
        }
        true
    }

    /// Whether the transaction at the place, which reads and writes this, has a higher point than
    /// each that it depends on.
    pub fn passes_into(&self, place: usize, reads: &[Access], writes: &[Access]) -> bool
        ensures { result ≡ true
            → PassesInto self.now.points self.now.users place reads.now writes.now }
    {
        self.is_above_writers(place, reads)
            && self.is_above_readers(place, reads, writes)
            && self.is_above_nil_readers(place, writes)
    }

    fn is_below_readers(&self, place: usize, writes: &[Access]) -> bool
        ensures { result ≡ true
            → BelowReaders self.now.points self.now.users.readers place writes.now }
    {
        for write in writes {
            if !self.are_all_higher(self.readers(write.version), place) {
                return false;
            }
        }
        true
    }

    fn is_below_updaters(&self, place: usize, reads: &[Access]) -> bool
        ensures { result ≡ true
            → BelowUpdaters self.now.points self.now.users.updaters place reads.now }
    {
        for read in reads {
            if !self.are_all_higher(self.updaters(read.version), place) {
                return false;
            }
        }
        true
    }

    fn is_below_key_writers(&self, place: usize, reads: &[Access]) -> bool
        ensures { result ≡ true
            → BelowKeyWriters self.now.points self.now.users place reads.now }
    {
        let point = self.point(place);
        for read in reads {
            if read.version == read.nil
                && !self.are_all_higher(self.nil_followers(read.nil, point), place)
            {
                return false;
            }
        }
        true
    }

    /// Whether the transaction at the place, which reads and writes this, has a lower point than
    /// each that depends on it.
    pub fn passes_out_of(&self, place: usize, reads: &[Access], writes: &[Access]) -> bool
        ensures { result ≡ true
            → PassesOutOf self.now.points self.now.users place reads.now writes.now }
    {
        self.is_below_readers(place, writes)
            && self.is_below_updaters(place, reads)
            && self.is_below_key_writers(place, reads)
    }
}
