//! The search for two transactions that depend on each other: a closed walk of two dependency
//! edges. At the level plain no closed walk has fewer, since an edge joins two different
//! transactions.
//!
//! Every dependency edge goes by way of a version. It leaves the transaction that installs the
//! version and leads to one that reads it (wr) or follows it (ww), or it leaves one that reads the
//! version and leads to one that follows it (rw). So versions are looked at one by one: each with
//! the ww and wr edges that leave those to which it leads, or with what its followers read and what
//! its readers follow, and never with all pairs of a reader and a follower. That takes time linear
//! in what the versions' rows hold, times the number of versions that one transaction touches, and
//! a few numbers for each transaction, version and follower.

ghost use Rattle.std.specs.Prelude.{◌≡◌, ◌<◌, ◌||◌, ◌==◌, ℕ, ⊤, length, slice_index, All, Contains, IsTrue, IfOk, OnOk};
ghost use Rattle.std.specs.Bool.{OnFalse};
ghost use Rattle.std.specs.List.{list_any};
ghost use Rattle.dep_edges.specs.Tables.{IsPlace, IsNumber};
ghost use Rattle.edge_graph.specs.Kinds.{AreAmong};
ghost use Rattle.edge_graph.specs.declared.types.Dependencies.TheVariants.{Rw};
ghost use Rattle.flat_groups.specs.Groups.{IsNumbered};
ghost use Rattle.hist_types.specs.Edges.{edges_at};
ghost use Rattle.hist_types.specs.declared.types.Level.TheVariants.{Plain};
ghost use Rattle.hist_types.specs.declared.types.Phenomenon.TheVariants.{G2Item};
ghost use Rattle.cycle_find.specs.Dependencies as walks;
ghost use Rattle.cycle_find.specs.Tasks.{Includes};
ghost use Rattle.cycle_find.specs.TwoDependencies.{AreFollowed, AreReadMarked, IsEnd, IsFollower, IsIn, IsReader, IsSource, IsTwoOr, IsMutual, IsReadMarked, HasFollowers, KeepsMarks, NoPair, NoneBackBy, NoneBackFrom, NoneBy, NoneByMarked, NoneByTwo, NoneByTwoFrom, IsPair, places_of};

use crate::kinds::{direct_back, needed};
use crate::one_dependency::Ends;
use crate::sharing::number;
use crate::single::there_and_back;
use crate::types::Walk;
use dep_edges::deps::Deps;
use edge_graph::types::{Dependencies, Kinds};
use flat_groups::groups::Groups;
use hist_types::types::{Level, Phenomenon};
use key_versions::types::Follower;
use std::alloc::{AllocError, Global};
use std::marker::Model;

/// What a search for two transactions finds.
#[derive(Drop)]
pub enum Mutual<'a> {
    /// Two, with the closed walk along an edge from one to the other and an edge back.
    Found(Walk<'a>),
    /// There are none.
    Nowhere,
    /// The steps didn't suffice to tell.
    Unknown,
}

/// How many steps a search takes, at most, for each transaction and version, where it is to be
/// linear. For most histories that is enough.
const STEPS: usize = 32;

/// So many steps that a search within them is linear in the history.
pub fn linear_steps(deps: &Deps<'_, '_>) -> usize {
    let history = deps.history();
    let numbers = history.txns().len().saturating_add(history.versions());
    numbers.saturating_mul(STEPS)
}

/// Why a search stopped.
#[derive(Clone, Copy)]
enum Stop {
    OutOfMemory,
    OutOfSteps,
}

impl From<AllocError> for Stop {
    fn from(_error: AllocError) -> Self {
        Stop::OutOfMemory
    }
}

/// The places of a version's readers or followers, or of both.
#[derive(Drop)]
struct Places<'v> {
    readers: &'v [u32],
    followers: &'v [Follower],
}

impl<'v> Model for Places<'v> {
    ghost use Rattle.std.specs.Prelude.{◌++◌, ℕ, List, map};
    ghost use Rattle.cycle_find.specs.TwoDependencies.{places_of};

    ghost Value = { List ℕ };

    ghost view = { λ p. p.readers.now ++ places_of p.followers.now };
}

impl<'v> Places<'v> {
    fn len(&self) -> usize
        ensures { result ≡ length self.now }
    {
        self.readers.len() + self.followers.len()
    }

    fn at(&self, index: usize) -> usize
        requires { index < length self.now }
        ensures { result ≡ slice_index self.now index }
    {
        if index < self.readers.len() {
            self.readers[index] as usize
        } else {
            self.followers[index - self.readers.len()].txn as usize
        }
    }
}

/// Some transactions or versions by their numbers, and the steps that a search has left.
#[derive(Drop)]
struct Marks {
    marks: Vec<usize>,
    /// The mark of those that are among them.
    mark: usize,
    steps: usize,
}

impl Marks {
    fn new(alloc: Global, numbers: usize, steps: usize) -> Result<Self, AllocError>
        ensures { IfOk result (λ marks. length marks.marks.items ≡ numbers) }
    {
        Ok(Marks {
            marks: vec![in alloc; usize::MAX; numbers]?,
            mark: 0,
            steps,
        })
    }

    /// None of them any more, if none has this mark.
    fn clear(&mut self, mark: usize)
        ensures { length self.new.marks.items ≡ length self.old.marks.items }
    {
        self.mark = mark;
    }

    fn add(&mut self, number: usize)
        requires { number < length self.old.marks.items }
        ensures length { length self.new.marks.items ≡ length self.old.marks.items }
        ensures kept { KeepsMarks self.old self.new }
        ensures added { IsIn self.new number }
    {
        self.marks[number] = self.mark;
    }

    fn contains(&self, number: usize) -> bool
        ensures { number < length self.now.marks.items → OnFalse result (¬ IsIn self.now number) }
    {
        self.marks.get(number) == Some(&self.mark)
    }

    fn spend(&mut self, steps: usize) -> Result<(), Stop>
        ensures length { length self.new.marks.items ≡ length self.old.marks.items }
        ensures kept { KeepsMarks self.old self.new }
    {
        if steps >= self.steps {
            return Err(Stop::OutOfSteps);
        }
        self.steps -= steps;
        Ok(())
    }
}

fn is_among(numbers: &[u32], number: u32) -> bool
    ensures { result ≡ list_any (λ m. m == number) numbers.now }
{
    numbers.contains(&number)
}

/// A search for two transactions that show a phenomenon at the level plain.
#[derive(Drop)]
struct TwoDependencies<'r, 'v, 'a> {
    alloc: Global,
    deps: &'r Deps<'v, 'a>,
    phenomenon: Phenomenon,
}

impl<'r, 'v, 'a> TwoDependencies<'r, 'v, 'a> {
    fn find(&self, steps: usize) -> Result<Option<Walk<'a>>, Stop>
        ensures { IfOk result (IsTwoOr self.now
            (NoPair self.now (walks.way_back self.now.phenomenon))) }
    {
        match self.phenomenon {
            Phenomenon::G2Item => self.find_item(steps),
            _ => self.by_versions(steps),
        }
    }

    /// Two that show G2-item: by a lost update, if there is one, since it tells a reader most, then
    /// by two rw edges, so that they tell something else than G-single does.
    fn find_item(&self, steps: usize) -> Result<Option<Walk<'a>>, Stop>
        requires { self.now.phenomenon ≡ G2Item }
        ensures { IfOk result (IsTwoOr self.now
            (NoPair self.now (walks.way_back self.now.phenomenon))) }
    {
        let Some(skew) = self.by_two_versions(steps)? else {
            return self.by_versions(steps);
        };
        let lost = self.lost_update(steps)?;
        Ok(Some(lost.unwrap_or(skew)))
    }

    /// Two that read a version and follow it.
    fn lost_update(&self, steps: usize) -> Result<Option<Walk<'a>>, Stop>
        requires { self.now.phenomenon ≡ G2Item }
        ensures { IfOk result (IsTwoOr self.now ⊤) }
    {
        let history = self.deps.history();
        let mut readers = Marks::new(self.alloc, history.txns().len(), steps)?;
        for version in 0..history.versions() {
            let found = self.lost_update_of(version, &mut readers)?;
            if found.is_some() {
                return Ok(found);
            }
        }
        Ok(None)
    }

    /// Two that read the version and follow it. Its readers get marked.
    fn lost_update_of(
        &self,
        version: usize,
        readers: &mut Marks,
    ) -> Result<Option<Walk<'a>>, AllocError>
        requires item { self.now.phenomenon ≡ G2Item }
        requires version { IsNumber self.now.deps.now.table version }
        requires marks { length readers.old.marks.items ≡ length self.now.deps.now.txns }
        ensures marks { length readers.new.marks.items ≡ length self.now.deps.now.txns }
        ensures found { IfOk result (IsTwoOr self.now ⊤) }
    {
        self.mark_sources(version, readers);
        let mut first = None;
        for follower in self.deps.history().followers(version) {
            let to = follower.txn as usize;
            if readers.contains(to) {
                match first {
                    Some(from) if from != to => {
                        return self.close(from, to, Dependencies::Rw);
                    }
                    _ => first = Some(to),
                }
            }
        }
        Ok(None)
    }

    /// Marks the transactions that needed edges leave by way of the version, and no others.
    fn mark_sources(&self, version: usize, sources: &mut Marks)
        requires version { IsNumber self.now.deps.now.table version }
        requires marks { length sources.old.marks.items ≡ length self.now.deps.now.txns }
        ensures length { length sources.new.marks.items ≡ length self.now.deps.now.txns }
        ensures marked { (place : ℕ) → IsSource self.now version place
            → IsIn sources.new place }
    {
        let history = self.deps.history();
        sources.clear(version);
        if needed(self.phenomenon) == Dependencies::Rw {
            for place in history.readers(version) {
                sources.add(*place as usize);
            }
        } else if let Some(writer) = history.writer(version) {
            sources.add(writer.txn as usize);
        }
    }

    /// The readers of the version, if wr edges are of the kinds.
    fn readers(&self, kinds: Kinds, version: usize) -> &'v [u32]
        requires { IsNumber self.now.deps.now.table version }
        ensures within { All (IsPlace self.now.deps.now.txns) result.now }
        ensures all { (place : ℕ) → IsTrue kinds.wr → IsReader self.now.deps.now version place
            → Contains result.now place }
    {
        if kinds.wr {
            self.deps.history().readers(version)
        } else {
            &[]
        }
    }

    /// The followers of the version, if ww or rw edges are of the kinds.
    fn followers(&self, kinds: Kinds, version: usize) -> &'v [Follower]
        requires { IsNumber self.now.deps.now.table version }
        ensures within { All (IsPlace self.now.deps.now.txns) (places_of result.now) }
        ensures all { (place : ℕ) → IsTrue (kinds.ww || kinds.rw)
            → IsFollower self.now.deps.now version place → Contains (places_of result.now) place }
    {
        if kinds.ww || kinds.rw {
            self.deps.history().followers(version)
        } else {
            &[]
        }
    }

    /// The transactions to which edges of the kind lead by way of the version.
    fn ends(&self, kind: Dependencies, version: usize) -> Places<'v>
        requires { IsNumber self.now.deps.now.table version }
        ensures within { All (IsPlace self.now.deps.now.txns) result }
        ensures all { (place : ℕ) → IsEnd self.now.deps.now kind version place
            → Contains result place }
    {
        let kinds = Kinds::of(kind, Level::Plain);
        Places {
            readers: self.readers(kinds, version),
            followers: self.followers(kinds, version),
        }
    }

    /// Two by a needed edge and a ww or wr edge back.
    fn by_versions(&self, steps: usize) -> Result<Option<Walk<'a>>, Stop>
        ensures { IfOk result (IsTwoOr self.now
            (NoPair self.now (walks.direct_back self.now.phenomenon))) }
    {
        let history = self.deps.history();
        let mut sources = Marks::new(self.alloc, history.txns().len(), steps)?;
        for version in 0..history.versions() {
            let found = self.by_version(version, &mut sources)?;
            if found.is_some() {
                return Ok(found);
            }
        }
        Ok(None)
    }

    /// Two of which the needed edge goes by way of the version. Those that it leaves get marked.
    fn by_version(&self, version: usize, sources: &mut Marks) -> Result<Option<Walk<'a>>, Stop>
        requires version { IsNumber self.now.deps.now.table version }
        requires marks { length sources.old.marks.items ≡ length self.now.deps.now.txns }
        ensures marks { length sources.new.marks.items ≡ length self.now.deps.now.txns }
        ensures found { IfOk result (IsTwoOr self.now (NoneBy self.now version)) }
    {
        self.mark_sources(version, sources);
        let ends = self.ends(needed(self.phenomenon), version);
        for index in 0..ends.len() {
            let found = self.back_from(ends.at(index), sources)?;
            if found.is_some() {
                return Ok(found);
            }
        }
        Ok(None)
    }

    /// Two by a ww or wr edge from the transaction back to one that is marked.
    fn back_from(&self, to: usize, sources: &mut Marks) -> Result<Option<Walk<'a>>, Stop>
        requires to { IsPlace self.now.deps.now.txns to }
        requires marks { length sources.old.marks.items ≡ length self.now.deps.now.txns }
        ensures marks { length sources.new.marks.items ≡ length self.now.deps.now.txns }
        ensures kept { KeepsMarks sources.old sources.new }
        ensures found { IfOk result (IsTwoOr self.now (NoneBackFrom self.now sources.old to)) }
    {
        for version in self.deps.history().installs(to) {
            let found = self.back_by(to, *version as usize, sources)?;
            if found.is_some() {
                return Ok(found);
            }
        }
        Ok(None)
    }

    /// Two by such an edge that goes by way of the version.
    fn back_by(
        &self,
        to: usize,
        version: usize,
        sources: &mut Marks,
    ) -> Result<Option<Walk<'a>>, Stop>
        requires version { IsNumber self.now.deps.now.table version }
        requires marks { length sources.old.marks.items ≡ length self.now.deps.now.txns }
        ensures marks { length sources.new.marks.items ≡ length self.now.deps.now.txns }
        ensures kept { KeepsMarks sources.old sources.new }
        ensures found { IfOk result
            (IsTwoOr self.now (NoneBackBy self.now sources.old version to)) }
    {
        let back = direct_back(self.phenomenon);
        let ends = self.ends(back, version);
        sources.spend(ends.len())?;
        for index in 0..ends.len() {
            let from = ends.at(index);
            if sources.contains(from) {
                let found = self.close(from, to, back)?;
                if found.is_some() {
                    return Ok(found);
                }
            }
        }
        Ok(None)
    }

    /// Two by two rw edges.
    fn by_two_versions(&self, steps: usize) -> Result<Option<Walk<'a>>, Stop>
        requires { self.now.phenomenon ≡ G2Item }
        ensures { IfOk result (IsTwoOr self.now (NoPair self.now Rw)) }
    {
        let history = self.deps.history();
        let followed = self.followed()?;
        let mut read = Marks::new(self.alloc, history.versions(), steps)?;
        for version in 0..history.versions() {
            let found = self.by_version_and_back(version, &followed, &mut read)?;
            if found.is_some() {
                return Ok(found);
            }
        }
        Ok(None)
    }

    /// For each transaction, the versions that it follows.
    fn followed(&self) -> Result<Groups<u32>, AllocError>
        ensures count { IfOk result (λ followed.
            length followed ≡ length self.now.deps.now.txns) }
        ensures followed { IfOk result (AreFollowed self.now) }
    {
        let history = self.deps.history();
        let mut pairs = Vec::new(self.alloc);
        for version in 0..history.versions() {
            self.add_followers(version, &mut pairs)?;
        }
        Groups::of(self.alloc, history.txns().len(), &pairs)
    }

    /// Adds the version's followers, with the version.
    fn add_followers(&self, version: usize, pairs: &mut Vec<(u32, u32)>) -> Result<(), AllocError>
        requires version { IsNumber self.now.deps.now.table version }
        requires numbered { All (IsNumbered (length self.now.deps.now.txns)) pairs.old.items }
        ensures numbered { OnOk result
            (All (IsNumbered (length self.now.deps.now.txns)) pairs.new.items) }
        ensures kept { OnOk result (Includes pairs.old.items pairs.new.items) }
        ensures added { OnOk result (HasFollowers self.now version pairs.new.items) }
    {
        let number = number(version)?;
        for follower in self.deps.history().followers(version) {
            self.add_follower(follower.txn, number, pairs)?;
        }
        Ok(())
    }

    /// Adds the transaction with the version.
    fn add_follower(
        &self,
        place: u32,
        version: u32,
        pairs: &mut Vec<(u32, u32)>,
    ) -> Result<(), AllocError>
        requires place { IsPlace self.now.deps.now.txns place }
        requires numbered { All (IsNumbered (length self.now.deps.now.txns)) pairs.old.items }
        ensures numbered { OnOk result
            (All (IsNumbered (length self.now.deps.now.txns)) pairs.new.items) }
        ensures kept { OnOk result (Includes pairs.old.items pairs.new.items) }
        ensures added { OnOk result (Contains pairs.new.items (place, version)) }
    {
        pairs.push((place, version))?;
        Ok(())
    }

    /// Two of which an rw edge goes by way of the version, from its reader to its follower. What
    /// its followers read gets marked.
    fn by_version_and_back(
        &self,
        version: usize,
        followed: &Groups<u32>,
        read: &mut Marks,
    ) -> Result<Option<Walk<'a>>, Stop>
        requires item { self.now.phenomenon ≡ G2Item }
        requires version { IsNumber self.now.deps.now.table version }
        requires count { length followed.now ≡ length self.now.deps.now.txns }
        requires followed { AreFollowed self.now followed.now }
        requires marks { length read.old.marks.items ≡ length self.now.deps.now.table.versions }
        ensures marks { length read.new.marks.items ≡ length self.now.deps.now.table.versions }
        ensures found { IfOk result (IsTwoOr self.now (NoneByTwo self.now version)) }
    {
        self.mark_read(version, read)?;
        for reader in self.deps.history().readers(version) {
            let found = self.back_to(*reader as usize, version, followed, read)?;
            if found.is_some() {
                return Ok(found);
            }
        }
        Ok(None)
    }

    /// Marks what the version's followers read, and nothing else.
    fn mark_read(&self, version: usize, read: &mut Marks) -> Result<(), Stop>
        requires version { IsNumber self.now.deps.now.table version }
        requires marks { length read.old.marks.items ≡ length self.now.deps.now.table.versions }
        ensures marks { length read.new.marks.items ≡ length self.now.deps.now.table.versions }
        ensures marked { OnOk result (AreReadMarked self.now version read.new) }
    {
        read.clear(version);
        for follower in self.deps.history().followers(version) {
            self.mark_read_by(follower.txn as usize, read)?;
        }
        Ok(())
    }

    /// Marks what the transaction reads.
    fn mark_read_by(&self, place: usize, read: &mut Marks) -> Result<(), Stop>
        requires place { IsPlace self.now.deps.now.txns place }
        requires marks { length read.old.marks.items ≡ length self.now.deps.now.table.versions }
        ensures marks { length read.new.marks.items ≡ length self.now.deps.now.table.versions }
        ensures kept { KeepsMarks read.old read.new }
        ensures marked { OnOk result (IsReadMarked self.now place read.new) }
    {
        let numbers = self.deps.history().reads(place);
        read.spend(numbers.len())?;
        for number in numbers {
            read.add(*number as usize);
        }
        Ok(())
    }

    /// Two by an rw edge from the version's reader, and one back to it.
    fn back_to(
        &self,
        from: usize,
        version: usize,
        followed: &Groups<u32>,
        read: &mut Marks,
    ) -> Result<Option<Walk<'a>>, Stop>
        requires item { self.now.phenomenon ≡ G2Item }
        requires from { IsPlace self.now.deps.now.txns from }
        requires version { IsNumber self.now.deps.now.table version }
        requires count { length followed.now ≡ length self.now.deps.now.txns }
        requires followed { AreFollowed self.now followed.now }
        requires marks { length read.old.marks.items ≡ length self.now.deps.now.table.versions }
        requires marked { AreReadMarked self.now version read.old }
        ensures marks { length read.new.marks.items ≡ length self.now.deps.now.table.versions }
        ensures kept { KeepsMarks read.old read.new }
        ensures found { IfOk result (IsTwoOr self.now (NoneByTwoFrom self.now version from)) }
    {
        let others = followed.get(from);
        read.spend(others.len())?;
        for other in others {
            let found = self.close_by(from, version, *other, read)?;
            if found.is_some() {
                return Ok(found);
            }
        }
        Ok(None)
    }

    /// Two by an rw edge by way of the version, and one back by way of the other version, if that
    /// is marked.
    fn close_by(
        &self,
        from: usize,
        version: usize,
        other: u32,
        read: &mut Marks,
    ) -> Result<Option<Walk<'a>>, Stop>
        requires item { self.now.phenomenon ≡ G2Item }
        requires version { IsNumber self.now.deps.now.table version }
        requires marks { length read.old.marks.items ≡ length self.now.deps.now.table.versions }
        ensures marks { length read.new.marks.items ≡ length self.now.deps.now.table.versions }
        ensures kept { KeepsMarks read.old read.new }
        ensures found { IfOk result
            (IsTwoOr self.now (NoneByMarked self.now read.old version from other)) }
    {
        if !read.contains(other as usize) {
            return Ok(None);
        }
        let history = self.deps.history();
        let followers = history.followers(version);
        read.spend(followers.len())?;
        for follower in followers {
            let to = follower.txn as usize;
            // What a transaction installs after its own read makes no edge.
            if to != from && is_among(history.reads(to), other) {
                let found = self.close(from, to, Dependencies::Rw)?;
                if found.is_some() {
                    return Ok(found);
                }
            }
        }
        Ok(None)
    }

    /// The closed walk along a needed edge from one transaction to another, and an edge of these
    /// back.
    fn close(
        &self,
        from: usize,
        to: usize,
        back: Dependencies,
    ) -> Result<Option<Walk<'a>>, AllocError>
        requires { AreAmong back (walks.way_back self.now.phenomenon) }
        ensures { IfOk result (IsTwoOr self.now (¬ IsPair self.now back from to)) }
    {
        let ends = Ends { from, to };
        there_and_back(self.alloc, self.deps, self.phenomenon, ends, back)
    }
}

/// Two transactions of which one leads to the other by an edge that the phenomenon needs, and the
/// other one back, at the level plain.
pub fn find_mutual<'a>(
    alloc: Global,
    deps: &Deps<'_, 'a>,
    phenomenon: Phenomenon,
    steps: usize,
) -> Result<Mutual<'a>, AllocError>
    ensures { IfOk result
        (IsMutual phenomenon (edges_at deps.now.table.keys Plain deps.now.txns)) }
{
    let search = TwoDependencies {
        alloc,
        deps,
        phenomenon,
    };
    match search.find(steps) {
        Ok(Some(walk)) => Ok(Mutual::Found(walk)),
        Ok(None) => Ok(Mutual::Nowhere),
        Err(Stop::OutOfSteps) => Ok(Mutual::Unknown),
        Err(Stop::OutOfMemory) => Err(AllocError),
    }
}
