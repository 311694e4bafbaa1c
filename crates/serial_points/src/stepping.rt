//! Looks at points that may be next, along the steps of processes.

ghost use Rattle.std.specs.Prelude.{◌≡◌, true, All};
ghost use Rattle.serial_points.specs.Stepping.{has_install, HasNoInstall, IsNoNode, IsLeftOut, IsLowerUnlessLeftOut, IsHigherUnlessLeftOut, AboveUsers, IsAboveStepsTo, BelowInstallers, BelowReadSteps, IsBelowStepsFrom, BelowOwnStepsAt, IsBelowIfNode, IsBelowUnlessOk, has_another, WritersPassSteps, NewNodesBelowSteps, AboveStepsAt, FallsAboveSteps, IsAboveStep, StepRises, StepsPass};

use crate::falls::Fall;
use crate::users::Users;
use crate::views::{LiveRun, PointsView};
use clean_order::updates::updates;
use key_versions::kept::Access;
use std::hash::BuildHasher;

/// Points are given up where processes went on from a version to more others than these, and it is
/// read again: a look at who writes each of them, for each such read, would take time for all
/// pairs.
const MOST_LATER: usize = 4096;

/// Whether one of the writes is of the version, and no later one is of its key.
fn has_install(writes: &[Access], version: u32) -> bool
    ensures { result ≡ has_install version writes.now }
{
    writes.iter().any(|write| write.version == version && !updates(writes, *write))
}

/// Whether one of the places is another one than this.
pub(crate) fn has_another(places: &[u32], place: usize) -> bool
    ensures { result ≡ has_another place places.now }
{
    places.iter().any(|other| *other as usize != place)
}

impl<'r, 'a, S: BuildHasher + Copy> LiveRun<'r, 'a, S> {
    /// Whether the transaction at the place doesn't install the version.
    pub fn has_no_install(&self, place: usize, version: u32) -> bool
        ensures { result ≡ true → HasNoInstall self.now version place }
    {
        !has_install(self.writes(place), version)
    }

    /// Whether the transaction at the place is known to be no node: it isn't ok, and nobody reads
    /// what it writes.
    pub fn is_no_node(&self, users: &Users, place: usize) -> bool
        ensures { result ≡ true → IsNoNode users.now self.now place }
    {
        !self.is_ok(place) && self.is_unread(users, place)
    }

    /// Whether no edge leads from the transaction at the place by a step from the version, if it
    /// doesn't read the version.
    pub fn is_left_out(&self, users: &Users, place: usize, version: u32) -> bool
        ensures { result ≡ true → IsLeftOut users.now self.now version place }
    {
        self.has_no_install(place, version) || self.is_no_node(users, place)
    }
}

impl<'p, 'r, 'a, S: BuildHasher + Copy> PointsView<'p, 'r, 'a, S> {
    /// Whether the first one has a lower point than the second one, if they are two, or is left
    /// out.
    fn is_lower_or_left_out(&self, place: usize, other: usize, version: u32) -> bool
        ensures { result ≡ true → IsLowerUnlessLeftOut self.now other version place }
    {
        self.is_lower_if_other(place, other) || self.is_left_out(place, version)
    }

    fn are_lower_or_left_out(&self, others: &[u32], place: usize, version: u32) -> bool
        ensures { result ≡ true
            → All (IsLowerUnlessLeftOut self.now place version) others.now }
    {
        for other in others {
            if !self.is_lower_or_left_out(*other as usize, place, version) {
                return false;
            }
        }
        true
    }

    /// Whether the point at the place is above those of all other nodes that read or install the
    /// version.
    fn is_above_users(&self, place: usize, version: u32) -> bool
        ensures { result ≡ true → AboveUsers self.now place version }
    {
        self.is_above_readers_of(place, version)
            && self.are_lower_or_left_out(self.writers(version), place, version)
    }

    fn is_above_all_users(&self, place: usize, earlier: &[u32]) -> bool
        ensures { result ≡ true → All (AboveUsers self.now place) earlier.now }
    {
        for version in earlier {
            if !self.is_above_users(place, *version) {
                return false;
            }
        }
        true
    }

    /// Whether it is so at each version from which a process went to the one that the write is of,
    /// or it isn't the last one of its key.
    fn is_above_steps_to(&self, place: usize, writes: &[Access], write: Access) -> bool
        ensures { result ≡ true → IsAboveStepsTo self.now place writes.now write }
    {
        if self.is_above_all_users(place, self.earlier(write.version)) {
            return true;
        }
        updates(writes, write)
    }

    /// Whether it is so at each version from which a process went to one that the transaction at
    /// the place installs.
    fn is_above_steps(&self, place: usize) -> bool
        ensures { result ≡ true → AboveStepsAt self.now place }
    {
        let writes = self.writes(place);
        for write in writes {
            if !self.is_above_steps_to(place, writes, *write) {
                return false;
            }
        }
        true
    }

    fn falls_are_above_steps(&self, falls: &[Fall]) -> bool
        ensures { result ≡ true → FallsAboveSteps self.now falls.now }
    {
        for fall in falls {
            if !self.is_above_steps(fall.place as usize) {
                return false;
            }
        }
        true
    }

    /// Whether the first one has a lower point than the second one, if they are two, or the second
    /// one doesn't install the version.
    fn is_lower_or_no_install(&self, place: usize, other: usize, version: u32) -> bool
        ensures { result ≡ true → IsHigherUnlessLeftOut self.now place version other }
    {
        self.is_lower_if_other(place, other) || self.has_no_install(other, version)
    }

    /// Whether it has a lower point than all others that install the version.
    fn is_below_installers(&self, place: usize, version: u32) -> bool
        ensures { result ≡ true → BelowInstallers self.now place version }
    {
        let others = self.writers(version);
        for other in others {
            if !self.is_lower_or_no_install(place, *other as usize, version) {
                return false;
            }
        }
        true
    }

    /// Whether the point at the place is below those of all others that install one of the
    /// versions.
    fn is_below_all_installers(&self, place: usize, later: &[u32]) -> bool
        ensures { result ≡ true → All (BelowInstallers self.now place) later.now }
    {
        if later.len() > MOST_LATER {
            return false;
        }
        for version in later {
            if !self.is_below_installers(place, *version) {
                return false;
            }
        }
        true
    }

    /// Whether it is so at each version to which a process went from one that is read.
    fn is_below_read_steps(&self, place: usize, reads: &[Access]) -> bool
        ensures { result ≡ true → BelowReadSteps self.now place reads.now }
    {
        for read in reads {
            if !self.is_below_all_installers(place, self.later(read.version)) {
                return false;
            }
        }
        true
    }

    /// Whether it is so at each version to which a process went from the one that the write is of,
    /// or it isn't the last one of its key.
    fn is_below_steps_from(&self, place: usize, writes: &[Access], write: Access) -> bool
        ensures { result ≡ true → IsBelowStepsFrom self.now place writes.now write }
    {
        if self.is_below_all_installers(place, self.later(write.version)) {
            return true;
        }
        updates(writes, write)
    }

    /// Whether it is so at each version to which a process went from one that the transaction at
    /// the place installs.
    fn is_below_own_steps(&self, place: usize) -> bool
        ensures { result ≡ true → BelowOwnStepsAt self.now place }
    {
        let writes = self.writes(place);
        for write in writes {
            if !self.is_below_steps_from(place, writes, *write) {
                return false;
            }
        }
        true
    }

    /// Whether it is so of the transaction at the place, if it may be a node.
    fn is_below_if_node(&self, place: usize) -> bool
        ensures { result ≡ true → IsBelowIfNode self.now place }
    {
        self.is_no_node(place) || self.is_below_own_steps(place)
    }

    /// Whether it is so of the transaction at the place, or it is ok, and so was a node before it
    /// was read.
    fn is_below_unless_ok(&self, place: usize) -> bool
        ensures { result ≡ true → IsBelowUnlessOk self.now place }
    {
        if self.is_ok(place) {
            return true;
        }
        self.is_below_own_steps(place)
    }

    fn are_below_unless_ok(&self, places: &[u32]) -> bool
        ensures { result ≡ true → All (IsBelowUnlessOk self.now) places.now }
    {
        for place in places {
            if !self.is_below_unless_ok(*place as usize) {
                return false;
            }
        }
        true
    }

    /// Whether what the transaction at the place reads was read before, or each that writes it is
    /// ok or below its own steps.
    fn read_makes_no_node(&self, place: usize, version: u32) -> bool
        ensures { result ≡ true → WritersPassSteps self.now place version }
    {
        if has_another(self.readers(version), place) {
            return true;
        }
        self.are_below_unless_ok(self.writers(version))
    }

    /// Whether each transaction that the one at the place makes a node, as it reads this, is below
    /// its own steps.
    fn new_nodes_are_below_steps(&self, place: usize, reads: &[Access]) -> bool
        ensures { result ≡ true → NewNodesBelowSteps self.now place reads.now }
    {
        for read in reads {
            if !self.read_makes_no_node(place, read.version) {
                return false;
            }
        }
        true
    }

    /// Whether the point at the place is above those of all other nodes that read or install the
    /// earlier version of the step, or the transaction doesn't install the later one.
    fn is_above_step(&self, place: usize, step: (u32, u32)) -> bool
        ensures { result ≡ true → IsAboveStep self.now step place }
    {
        let (later, earlier) = step;
        if self.is_above_users(place, earlier) {
            return true;
        }
        self.has_no_install(place, later)
    }

    /// Whether each that installs the later version of the step has a higher point than all other
    /// nodes that read or install the earlier one.
    fn step_rises(&self, step: (u32, u32)) -> bool
        ensures { result ≡ true → StepRises self.now step }
    {
        let places = self.writers(step.0);
        for place in places {
            if !self.is_above_step(*place as usize, step) {
                return false;
            }
        }
        true
    }

    fn fresh_steps_rise(&self) -> bool
        ensures { result ≡ true → All (StepRises self.now) self.now.run.lists.fresh.items }
    {
        let steps = self.fresh();
        for step in steps {
            if !self.step_rises(*step) {
                return false;
            }
        }
        true
    }

    /// Whether points pass along steps after an event of the transaction at the place, and these
    /// falls.
    pub fn steps_pass(&self, falls: &[Fall], place: usize) -> bool
        ensures { result ≡ true → StepsPass self.now falls.now place }
    {
        let reads = self.reads(place);
        if !self.is_above_steps(place) {
            return false;
        }
        if !self.is_below_read_steps(place, reads) {
            return false;
        }
        if !self.is_below_if_node(place) {
            return false;
        }
        if !self.new_nodes_are_below_steps(place, reads) {
            return false;
        }
        if !self.falls_are_above_steps(falls) {
            return false;
        }
        self.fresh_steps_rise()
    }
}
