//! Nothing is claimed of what these propose: points that may be next, which are looked at
//! afterwards.

use crate::falls::Fall;
use crate::stepping::has_another;
use crate::users::Users;
use crate::views::LiveRun;
use clean_order::in_time::POINTS;
use clean_order::updates::{has_key, updates};
use key_versions::kept::Access;
use std::alloc::{AllocError, Global};
use std::hash::BuildHasher;

/// How many falls one event may have. With more, the search ends, and its points won't pass.
const MOST_FALLS: usize = 16_384;

/// The points that the last search proposed, and those of its falls, one after the other.
#[derive(Drop)]
pub(crate) struct Proposal {
    /// By place.
    points: Vec<u64>,
    falls: Vec<Fall>,
}

impl Proposal {
    pub fn new(alloc: Global) -> Self {
        Proposal {
            points: Vec::new(alloc),
            falls: Vec::new(alloc),
        }
    }

    pub fn falls(&self) -> &[Fall] {
        self.falls.as_slice()
    }

    fn at(&self, place: usize) -> u64 {
        match self.points.get(place) {
            Some(point) => *point,
            None => 0,
        }
    }

    /// The point at the place is now this one.
    fn lower(&mut self, place: u32, point: u64) -> Result<(), AllocError> {
        if let Some(own) = self.points.get_mut(place as usize) {
            *own = point;
        }
        self.falls.push(Fall { place, point })?;
        Ok(())
    }

    /// The point at the place falls below this one, where it isn't below it.
    fn lower_below(&mut self, place: u32, point: u64) -> Result<(), AllocError> {
        if self.at(place as usize) < point {
            return Ok(());
        }
        self.lower(place, point.saturating_sub(1))
    }

    /// No point has fallen yet, and there is one for the transaction at the place.
    fn begin(&mut self, place: usize) -> Result<(), AllocError> {
        self.falls.clear();
        if place == self.points.len() {
            self.points.push(u64::MAX)?;
        }
        Ok(())
    }

    /// The least point of the others at the places.
    fn least(&self, places: &[u32], place: usize) -> u64 {
        let mut least = u64::MAX;
        for other in places {
            if *other as usize != place {
                least = least.min(self.at(*other as usize));
            }
        }
        least
    }

    /// A bound below the points of the others that write the key with this nil version.
    fn least_follower(&self, users: &Users, place: usize, nil: u32, writes: &[Access]) -> u64 {
        let floor = users.floors.at(nil);
        if floor > 0 && !has_key(writes, nil) {
            return floor;
        }
        self.least(users.key_writers.at(nil), place)
    }

    /// The least point of the others that install the version.
    fn least_installer<'r, 'a, S: BuildHasher + Copy>(
        &self,
        users: &Users,
        run: &LiveRun<'r, 'a, S>,
        place: usize,
        version: u32,
    ) -> u64 {
        let mut least = u64::MAX;
        for other in users.writers.at(version) {
            let point = self.at(*other as usize);
            if *other as usize != place
                && point < least
                && !run.has_no_install(*other as usize, version)
            {
                least = point;
            }
        }
        least
    }

    /// The least point of the others that install a version to which a process went from this one.
    fn least_later<'r, 'a, S: BuildHasher + Copy>(
        &self,
        users: &Users,
        run: &LiveRun<'r, 'a, S>,
        place: usize,
        version: u32,
    ) -> u64 {
        let mut least = u64::MAX;
        for later in run.later(version) {
            least = least.min(self.least_installer(users, run, place, *later));
        }
        least
    }

    /// The least of these, for the versions that the transaction at the place reads.
    fn least_after_reads<'r, 'a, S: BuildHasher + Copy>(
        &self,
        users: &Users,
        run: &LiveRun<'r, 'a, S>,
        place: usize,
    ) -> u64 {
        let mut above = u64::MAX;
        for read in run.reads(place) {
            above = above.min(self.least_later(users, run, place, read.version));
        }
        above
    }

    /// The least of these, for the versions that it installs.
    fn least_after_installs<'r, 'a, S: BuildHasher + Copy>(
        &self,
        users: &Users,
        run: &LiveRun<'r, 'a, S>,
        place: usize,
    ) -> u64 {
        let writes = run.writes(place);
        let mut above = u64::MAX;
        for write in writes {
            let later = self.least_later(users, run, place, write.version);
            if later < above && !updates(writes, *write) {
                above = later;
            }
        }
        above
    }

    /// The highest point that the transaction at the place, which is now ok, may have where
    /// processes took no steps.
    fn highest_without_steps<'r, 'a, S: BuildHasher + Copy>(
        &self,
        users: &Users,
        run: &LiveRun<'r, 'a, S>,
        place: usize,
    ) -> u64 {
        let mut above = match run.completion(place) {
            Some(completion) => completion.saturating_add(1).saturating_mul(POINTS),
            None => u64::MAX,
        };
        for read in run.reads(place) {
            above = above.min(self.least(users.updaters.at(read.version), place));
            if read.version == read.nil {
                above = above.min(self.least_follower(users, place, read.nil, run.writes(place)));
            }
        }
        self.at(place).min(above.saturating_sub(1))
    }

    /// The highest point that the transaction at the place, which is now ok, may have.
    fn highest<'r, 'a, S: BuildHasher + Copy>(
        &self,
        users: &Users,
        run: &LiveRun<'r, 'a, S>,
        place: usize,
    ) -> u64 {
        let after_reads = self.least_after_reads(users, run, place);
        let above = after_reads.min(self.least_after_installs(users, run, place));
        self.highest_without_steps(users, run, place)
            .min(above.saturating_sub(1))
    }

    /// Makes those at the places fall below the point at this place, where they are not.
    fn lower_all(&mut self, places: &[u32], place: u32) -> Result<(), AllocError> {
        let point = self.at(place as usize);
        for other in places {
            if *other != place {
                self.lower_below(*other, point)?;
            }
        }
        Ok(())
    }

    /// Makes those fall that read the version, where they are not below the point at this place.
    fn lower_readers(&mut self, users: &Users, place: u32, version: u32) -> Result<(), AllocError> {
        let readers = users.unbounded_readers(version, self.at(place as usize));
        self.lower_all(readers, place)
    }

    /// Makes those nodes fall that install the version, where they are not below the point at this
    /// place.
    fn lower_installers<'r, 'a, S: BuildHasher + Copy>(
        &mut self,
        users: &Users,
        run: &LiveRun<'r, 'a, S>,
        place: u32,
        version: u32,
    ) -> Result<(), AllocError> {
        let point = self.at(place as usize);
        for writer in users.writers.at(version) {
            if *writer != place
                && self.at(*writer as usize) >= point
                && !run.is_left_out(users, *writer as usize, version)
            {
                self.lower_below(*writer, point)?;
            }
        }
        Ok(())
    }

    /// Makes those nodes fall that read or install one of the versions, where they are not below
    /// the point at this place.
    fn lower_users<'r, 'a, S: BuildHasher + Copy>(
        &mut self,
        users: &Users,
        run: &LiveRun<'r, 'a, S>,
        place: u32,
        earlier: &[u32],
    ) -> Result<(), AllocError> {
        for version in earlier {
            self.lower_readers(users, place, *version)?;
            self.lower_installers(users, run, place, *version)?;
        }
        Ok(())
    }

    /// Makes those fall that read or install a version from which a process went to one that the
    /// transaction at the place, which writes this, installs.
    fn lower_for_steps<'r, 'a, S: BuildHasher + Copy>(
        &mut self,
        users: &Users,
        run: &LiveRun<'r, 'a, S>,
        place: u32,
        writes: &[Access],
    ) -> Result<(), AllocError> {
        for write in writes {
            let earlier = run.earlier(write.version);
            if !earlier.is_empty() && !updates(writes, *write) {
                self.lower_users(users, run, place, earlier)?;
            }
        }
        Ok(())
    }

    /// Makes those fall that the transaction at the place depends on.
    fn lower_predecessors<'r, 'a, S: BuildHasher + Copy>(
        &mut self,
        users: &Users,
        run: &LiveRun<'r, 'a, S>,
        place: u32,
    ) -> Result<(), AllocError> {
        let writes = run.writes(place as usize);
        for read in run.reads(place as usize) {
            self.lower_all(users.writers.at(read.version), place)?;
            if updates(writes, *read) {
                self.lower_readers(users, place, read.version)?;
            }
        }
        for write in writes {
            self.lower_readers(users, place, write.nil)?;
        }
        self.lower_for_steps(users, run, place, writes)
    }

    /// Makes those fall that read or install the earlier version of a step, where they aren't below
    /// who installs the later one.
    fn lower_for_step<'r, 'a, S: BuildHasher + Copy>(
        &mut self,
        users: &Users,
        run: &LiveRun<'r, 'a, S>,
        step: (u32, u32),
    ) -> Result<(), AllocError> {
        let (later, earlier) = step;
        for writer in users.writers.at(later) {
            if !run.has_no_install(*writer as usize, later) {
                self.lower_users(users, run, *writer, &[earlier])?;
            }
        }
        Ok(())
    }

    /// Makes those fall that read or install the earlier version of a fresh step.
    fn lower_for_fresh_steps<'r, 'a, S: BuildHasher + Copy>(
        &mut self,
        users: &Users,
        run: &LiveRun<'r, 'a, S>,
    ) -> Result<(), AllocError> {
        for step in run.fresh() {
            self.lower_for_step(users, run, *step)?;
        }
        Ok(())
    }

    /// Makes the one at the place fall, if it isn't ok, where it isn't below this point and below
    /// who installs a version to which a process went from one that it installs.
    fn lower_new_node<'r, 'a, S: BuildHasher + Copy>(
        &mut self,
        users: &Users,
        run: &LiveRun<'r, 'a, S>,
        writer: u32,
        point: u64,
    ) -> Result<(), AllocError> {
        if run.is_ok(writer as usize) {
            return Ok(());
        }
        let later = self.least_after_installs(users, run, writer as usize);
        self.lower_below(writer, later.min(point))
    }

    /// Makes those fall that write what the transaction at the place, with this point, is the first
    /// one to read.
    fn lower_new_nodes<'r, 'a, S: BuildHasher + Copy>(
        &mut self,
        users: &Users,
        run: &LiveRun<'r, 'a, S>,
        place: usize,
        point: u64,
    ) -> Result<(), AllocError> {
        for read in run.reads(place) {
            if !has_another(users.readers.at(read.version), place) {
                for writer in users.writers.at(read.version) {
                    self.lower_new_node(users, run, *writer, point)?;
                }
            }
        }
        Ok(())
    }

    /// Proposes points for after the last event, of the transaction at the place.
    pub fn search<'r, 'a, S: BuildHasher + Copy>(
        &mut self,
        users: &Users,
        run: &LiveRun<'r, 'a, S>,
        place: usize,
    ) -> Result<(), AllocError> {
        self.begin(place)?;
        if !run.is_ok(place) {
            return Ok(());
        }
        let point = self.highest(users, run, place);
        let number = u32::try_from(place).map_err(|_| AllocError)?;
        self.lower(number, point)?;
        self.lower_new_nodes(users, run, place, point)?;
        self.lower_for_fresh_steps(users, run)?;
        for i in 0..MOST_FALLS {
            let Some(fall) = self.falls.get(i) else {
                break;
            };
            let place = fall.place;
            self.lower_predecessors(users, run, place)?;
        }
        Ok(())
    }
}
