//! The search for a closed walk with one dependency edge, by one look at each arc.
//!
//! Such a walk goes back from the second end of that edge to its first along order edges alone. So
//! there is one exactly where the level's order puts the second end of a needed edge before its
//! first.

ghost use Rattle.std.specs.Prelude.{◌≡◌, ◌+◌, ◌<◌, ℕ, length, None, IfOk, OnOk};
ghost use Rattle.std.specs.Bool.{OnTrue, OnFalse};
ghost use Rattle.dep_edges.specs.Tables.{IsPlace};
ghost use Rattle.edge_graph.specs.Vertices.{IsArc};
ghost use Rattle.edge_graph.specs.declared.types.Dependencies.TheVariants.{Rw};
ghost use Rattle.cycle_find.specs.Dependencies as walks;
ghost use Rattle.cycle_find.specs.Found.{IsFoundByFewest};
ghost use Rattle.cycle_find.specs.OneDependency.{IsPathIfAny, IsBefore, AreClosing, AreClosingOr, IsEither, NoneClosing, NoneClosingFrom, NoneClosingBy, NoneClosingFromBy, IsVertex, AreKnown};
ghost use Rattle.cycle_find.specs.Tasks.{task_of, needed_kinds};

use crate::completions::{Earliest, is_before, is_known_by, lane, note};
use crate::kinds::needed;
use crate::types::Walk;
use edge_graph::arcs::GraphArcs;
use edge_graph::graph::Graph;
use edge_graph::types::{Dependencies, Kinds};
use graph_search::arcs::{Arcs, Vertices};
use graph_search::breadth_first::Search;
use hist_types::types::{Level, Phenomenon};
use process_map::map::ProcessMap;
use std::alloc::{AllocError, Global};
use std::marker::Model;

/// All vertices of a graph.
#[derive(Clone, Copy)]
struct AllVertices {
    count: usize,
}

impl Vertices for AllVertices {
    ghost use Rattle.std.specs.Prelude.{true};

    ghost members = { λ all. record { count = all.count; has = λ _. true } };

    fn contains(&self, _vertex: usize) -> bool {
        true
    }
}

/// The places of the two transactions of a dependency edge.
#[derive(Clone, Copy)]
pub(crate) struct Ends {
    pub from: usize,
    pub to: usize,
}

/// Of two edges, if there are any, the one whose first end was invoked first.
fn first_of(one: Option<Ends>, other: Option<Ends>) -> Option<Ends>
    ensures { IsEither one other result }
{
    match (one, other) {
        (Some(ends), Some(others)) if others.from < ends.from => other,
        (Some(_), _) => one,
        (None, _) => other,
    }
}

/// A search for a closed walk with one dependency edge that shows a phenomenon at a level.
#[derive(Drop)]
pub(crate) struct OneDependency<'r, 'g, 'v, 'a> {
    alloc: Global,
    graph: &'r Graph<'g, 'v, 'a>,
    phenomenon: Phenomenon,
    level: Level,
    /// The arcs of the edges of which it needs one.
    needed: GraphArcs<'r>,
}

impl<'r, 'g, 'v, 'a> Model for OneDependency<'r, 'g, 'v, 'a> {
    ghost use Rattle.cycle_find.specs.Found.{IsFoundByFewest};
    ghost use Rattle.cycle_find.specs.OneDependency.{IsReadyForOne};
    ghost use Rattle.cycle_find.specs.Tasks.{Task, task_of};

    ghost Value = { Task };

    ghost view = { λ o. task_of o.graph.now o.phenomenon o.level };

    ghost invariant = { λ o. IsReadyForOne (task_of o.graph.now o.phenomenon o.level) o.needed };
}

impl<'r, 'g, 'v, 'a> OneDependency<'r, 'g, 'v, 'a> {
    pub fn new(
        alloc: Global,
        graph: &'r Graph<'g, 'v, 'a>,
        phenomenon: Phenomenon,
        level: Level,
    ) -> Self
        ensures { result ≡ task_of graph.now phenomenon level }
    {
        OneDependency {
            alloc,
            graph,
            phenomenon,
            level,
            needed: graph.arcs(needed(phenomenon), Level::Plain),
        }
    }

    /// A closed walk with one dependency edge.
    pub fn find(&self) -> Result<Option<Walk<'a>>, AllocError>
        ensures { IfOk result (IsFoundByFewest 1 self.now) }
    {
        match self.ends()? {
            Some(ends) => self.close(ends),
            None => Ok(None),
        }
    }

    /// The first needed edge whose second end comes before its first.
    fn ends(&self) -> Result<Option<Ends>, AllocError>
        ensures { IfOk result (AreClosingOr self.now (IsFoundByFewest 1 self.now None)) }
    {
        if self.level == Level::Plain {
            // At plain nothing comes before anything.
            Ok(None)
        } else if needed(self.phenomenon) == Dependencies::Rw {
            self.by_version()
        } else {
            Ok(self.direct())
        }
    }

    /// Whether a vertex is a transaction that the order puts before the one at the place.
    fn comes_before(&self, first: usize, second: usize) -> bool
        requires { IsPlace self.now.graph.txns second }
        ensures yes { OnTrue result
            (IsPlace self.now.graph.txns first × IsBefore self.now first second) }
        ensures no { OnFalse result
            (IsPlace self.now.graph.txns first → ¬ IsBefore self.now first second) }
    {
        // Who completed before another one was invoked has the lower place.
        first < second && is_before(self.level, self.graph.txn(first), self.graph.txn(second))
    }

    /// The first such edge with an arc of its own: a ww or wr edge.
    fn direct(&self) -> Option<Ends>
        ensures { AreClosingOr self.now (NoneClosing self.now) result }
    {
        for from in 0..self.graph.len() {
            let found = self.direct_from(from);
            if found.is_some() {
                return found;
            }
        }
        None
    }

    /// One that leaves the transaction.
    fn direct_from(&self, from: usize) -> Option<Ends>
        requires { IsPlace self.now.graph.txns from }
        ensures { AreClosingOr self.now (NoneClosingFrom self.now from) result }
    {
        let successors = self.needed.successors(from);
        for index in 0..successors.len() {
            let to = successors.at(index);
            if self.comes_before(to, from) {
                return Some(Ends { from, to });
            }
        }
        None
    }

    /// The first such edge by way of a version: an rw edge.
    fn by_version(&self) -> Result<Option<Ends>, AllocError>
        requires { walks.needed self.now.phenomenon ≡ Rw }
        ensures { IfOk result (AreClosingOr self.now
            ((version : ℕ) → NoneClosingBy self.now version)) }
    {
        let mut earliest = ProcessMap::new(self.alloc);
        let mut first = None;
        for version in self.graph.len()..self.needed.vertices() {
            if self.is_read_before(version, &first) {
                self.note_followers(version, &mut earliest)?;
                first = first_of(first, self.stale_reader(version, &earliest));
            }
        }
        Ok(first)
    }

    /// Whether the version has a reader that was invoked before the one that was found, if any was.
    fn is_read_before(&self, version: usize, found: &Option<Ends>) -> bool
        requires rw { walks.needed self.now.phenomenon ≡ Rw }
        requires version { ¬ IsPlace self.now.graph.txns version }
        requires vertex { IsVertex self.now version }
        ensures { found.now ≡ None → OnFalse result (NoneClosingBy self.now version) }
    {
        let readers = self.graph.readers(version);
        if readers.is_empty() {
            return false;
        }
        match found {
            Some(ends) => (readers[0] as usize) < ends.from,
            None => true,
        }
    }

    /// Notes, for each lane, when the first of the version's followers completed.
    fn note_followers(
        &self,
        version: usize,
        earliest: &mut ProcessMap<Earliest>,
    ) -> Result<(), AllocError>
        requires version { ¬ IsPlace self.now.graph.txns version }
        requires vertex { IsVertex self.now version }
        ensures { OnOk result (AreKnown self.now version earliest.new) }
    {
        let followers = self.needed.successors(version);
        for index in 0..followers.len() {
            let follower = self.graph.txn(followers.at(index));
            note(self.level, version, follower, earliest)?;
        }
        Ok(())
    }

    /// An rw edge from a reader of the version to a follower that comes before it.
    fn stale_reader(&self, version: usize, earliest: &ProcessMap<Earliest>) -> Option<Ends>
        requires rw { walks.needed self.now.phenomenon ≡ Rw }
        requires version { ¬ IsPlace self.now.graph.txns version }
        requires vertex { IsVertex self.now version }
        requires known { AreKnown self.now version earliest.now }
        ensures { AreClosingOr self.now (NoneClosingBy self.now version) result }
    {
        for place in self.graph.readers(version) {
            let from = *place as usize;
            let reader = self.graph.txn(from);
            if is_known_by(
                earliest,
                version,
                lane(self.level, reader),
                reader.invocation(),
            ) {
                let found = self.follower_before(version, from);
                if found.is_some() {
                    return found;
                }
            }
        }
        None
    }

    /// An rw edge from the reader to the last of the version's followers that comes before it.
    fn follower_before(&self, version: usize, from: usize) -> Option<Ends>
        requires version { ¬ IsPlace self.now.graph.txns version }
        requires from { IsPlace self.now.graph.txns from }
        requires reads { IsArc self.now.graph (needed_kinds self.now) from version }
        ensures { AreClosingOr self.now (NoneClosingFromBy self.now from version) result }
    {
        let followers = self.needed.successors(version);
        let mut last = None;
        for index in 0..followers.len() {
            let to = followers.at(index);
            if self.comes_before(to, from) {
                last = Some(Ends { from, to });
            }
        }
        last
    }

    /// The closed walk along a needed edge and a path of order edges back.
    fn close(&self, ends: Ends) -> Result<Option<Walk<'a>>, AllocError>
        requires { AreClosing self.now ends }
        ensures { IfOk result (IsFoundByFewest 1 self.now) }
    {
        let kinds = Kinds::of(needed(self.phenomenon), Level::Plain);
        let Some(edge) = self.graph.edge_between(ends.from, ends.to, kinds)? else {
            return Ok(None);
        };
        let Some(path) = self.path(ends.to, ends.from)? else {
            return Ok(None);
        };
        let back = self
            .graph
            .edges_along(&path, Dependencies::None, self.level)?;
        Ok(Some(Walk::closing(edge, back)?))
    }

    /// A walk over the arcs of the level's order, from one transaction to another, if there is one.
    fn path(&self, from: usize, to: usize) -> Result<Option<Vec<usize>>, AllocError>
        requires { IsPlace self.now.graph.txns from }
        ensures { IfOk result (IsPathIfAny self.now from to) }
    {
        let order = self.graph.arcs(Dependencies::None, self.level);
        let all = AllVertices {
            count: order.vertices(),
        };
        let mut search = Search::new(self.alloc, order.vertices())?;
        search.walk(self.alloc, &order, &all, from, to)
    }
}
