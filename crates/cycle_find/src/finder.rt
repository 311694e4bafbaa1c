//! The search for one phenomenon at one level.

ghost use Rattle.std.specs.Prelude.{◌≡◌, ◌+◌, ◌<◌, length, IfOk};
ghost use Rattle.dep_edges.specs.Tables.{IsPlace};
ghost use Rattle.edge_graph.specs.Parts.{edges_in};
ghost use Rattle.edge_graph.specs.Vertices.{IsArc};
ghost use Rattle.cycle_find.specs.Found.{IsFound};
ghost use Rattle.cycle_find.specs.Prepared.{AreCoarseRanks, AreWholeRanks, AreBackRanks};
ghost use Rattle.cycle_find.specs.Ranked.{NeverFalls};
ghost use Rattle.cycle_find.specs.Tasks.{task_of, needed_kinds, whole_kinds, HasReturnBetween, IsShownOr, IsWayBackIfAny, NoneBy, NoneFrom};

use crate::kinds::{needed, way_back};
use crate::ranking::{NotAbove, Rankings};
use crate::types::Walk;
use edge_graph::arcs::GraphArcs;
use edge_graph::graph::Graph;
use edge_graph::types::Kinds;
use graph_search::arcs::{Arcs, Vertices};
use graph_search::breadth_first::Search;
use hist_types::types::{Level, Phenomenon};
use std::alloc::{AllocError, Global};
use std::marker::Model;

/// A search for a closed walk that shows a phenomenon at a level.
#[derive(Drop)]
pub(crate) struct Finder<'r, 'g, 'v, 'a> {
    alloc: Global,
    graph: &'r Graph<'g, 'v, 'a>,
    phenomenon: Phenomenon,
    level: Level,
    /// The arcs of the edges of which it needs one.
    needed: GraphArcs<'r>,
    /// The arcs of the way back.
    back: GraphArcs<'r>,
    /// No way back goes up by any of these.
    rankings: Rankings<'r>,
}

impl<'r, 'g, 'v, 'a> Model for Finder<'r, 'g, 'v, 'a> {
    ghost use Rattle.cycle_find.specs.Prepared.{IsPrepared};
    ghost use Rattle.cycle_find.specs.Tasks.{Task, task_of};

    ghost Value = { Task };

    ghost view = { λ f. task_of f.graph.now f.phenomenon f.level };

    ghost invariant = { λ f. IsPrepared (task_of f.graph.now f.phenomenon f.level)
        f.needed f.back f.rankings.coarse.now f.rankings.ranks.now f.rankings.back.now f.rankings.far.now f.rankings.late.now };
}

impl<'r, 'g, 'v, 'a> Finder<'r, 'g, 'v, 'a> {
    pub fn new(
        alloc: Global,
        graph: &'r Graph<'g, 'v, 'a>,
        phenomenon: Phenomenon,
        level: Level,
        rankings: Rankings<'r>,
    ) -> Self
        requires coarse { AreCoarseRanks (task_of graph.now phenomenon level)
            rankings.coarse.now }
        requires ranks { AreWholeRanks (task_of graph.now phenomenon level)
            rankings.coarse.now rankings.ranks.now }
        requires back { AreBackRanks (task_of graph.now phenomenon level)
            rankings.coarse.now rankings.back.now }
        requires far { AreBackRanks (task_of graph.now phenomenon level)
            rankings.coarse.now rankings.far.now }
        requires late { AreBackRanks (task_of graph.now phenomenon level)
            rankings.coarse.now rankings.late.now }
        ensures { result ≡ task_of graph.now phenomenon level }
    {
        Finder {
            alloc,
            graph,
            phenomenon,
            level,
            needed: graph.arcs(needed(phenomenon), Level::Plain),
            back: graph.arcs(way_back(phenomenon), level),
            rankings,
        }
    }

    /// A closed walk, if there is one.
    pub fn find(&self) -> Result<Option<Walk<'a>>, AllocError>
        ensures { IfOk result
            (IsFound self.now.phenomenon (edges_in self.now.graph self.now.level)) }
    {
        let mut search = Search::new(self.alloc, self.back.vertices())?;
        for from in 0..self.graph.len() {
            let found = self.find_from(&mut search, from)?;
            if found.is_some() {
                return Ok(found);
            }
        }
        Ok(None)
    }

    /// A closed walk by a needed edge that leaves the transaction.
    fn find_from(&self, search: &mut Search, from: usize) -> Result<Option<Walk<'a>>, AllocError>
        requires search { search.old ≡ length self.now.graph.txns + length self.now.graph.versions }
        requires from { IsPlace self.now.graph.txns from }
        ensures search { search.new ≡ search.old }
        ensures found { IfOk result (IsShownOr self.now (NoneFrom self.now from)) }
    {
        let successors = self.needed.successors(from);
        for index in 0..successors.len() {
            let by = successors.at(index);
            let found = self.find_by(search, from, by)?;
            if found.is_some() {
                return Ok(found);
            }
        }
        Ok(None)
    }

    /// A closed walk by a needed edge that leaves the transaction along the arc to this vertex.
    fn find_by(
        &self,
        search: &mut Search,
        from: usize,
        by: usize,
    ) -> Result<Option<Walk<'a>>, AllocError>
        requires search { search.old ≡ length self.now.graph.txns + length self.now.graph.versions }
        requires from { IsPlace self.now.graph.txns from }
        requires by { IsArc self.now.graph (needed_kinds self.now) from by }
        ensures search { search.new ≡ search.old }
        ensures found { IfOk result (IsShownOr self.now (NoneBy self.now from by)) }
    {
        let above = self.rankings.coarse.rank(by) > self.rankings.coarse.rank(from)
            || self.rankings.ranks.rank(by) > self.rankings.ranks.rank(from);
        if above {
            Ok(None)
        } else if by < self.graph.len() {
            self.close(search, from, by)
        } else {
            self.find_by_version(search, from, by)
        }
    }

    /// A closed walk by an rw edge from the transaction, which reads the version, to another one.
    fn find_by_version(
        &self,
        search: &mut Search,
        from: usize,
        version: usize,
    ) -> Result<Option<Walk<'a>>, AllocError>
        requires search { search.old ≡ length self.now.graph.txns + length self.now.graph.versions }
        requires from { IsPlace self.now.graph.txns from }
        requires version { ¬ IsPlace self.now.graph.txns version }
        requires by { IsArc self.now.graph (needed_kinds self.now) from version }
        ensures search { search.new ≡ search.old }
        ensures found { IfOk result (IsShownOr self.now (NoneBy self.now from version)) }
    {
        let successors = self.needed.successors(version);
        for index in 0..successors.len() {
            let to = successors.at(index);
            // What a transaction installs after its own read makes no edge.
            if to != from {
                let found = self.close(search, from, to)?;
                if found.is_some() {
                    return Ok(found);
                }
            }
        }
        Ok(None)
    }

    /// A closed walk by a needed edge from one transaction to another.
    fn close(
        &self,
        search: &mut Search,
        from: usize,
        to: usize,
    ) -> Result<Option<Walk<'a>>, AllocError>
        requires search { search.old ≡ length self.now.graph.txns + length self.now.graph.versions }
        requires from { IsPlace self.now.graph.txns from }
        requires to { IsPlace self.now.graph.txns to }
        requires rising { NeverFalls self.now.graph (whole_kinds self.now) from to }
        ensures search { search.new ≡ search.old }
        ensures found { IfOk result (IsShownOr self.now (¬ HasReturnBetween self.now from to)) }
    {
        let Some(way) = self.way_back(search, to, from)? else {
            return Ok(None);
        };
        let kinds = Kinds::of(needed(self.phenomenon), Level::Plain);
        let Some(edge) = self.graph.edge_between(from, to, kinds)? else {
            return Ok(None);
        };
        let back = self
            .graph
            .edges_along(&way, way_back(self.phenomenon), self.level)?;
        Ok(Some(Walk::closing(edge, back)?))
    }

    /// A walk over the arcs of a way back, from one vertex to another, if there is one.
    fn way_back(
        &self,
        search: &mut Search,
        from: usize,
        to: usize,
    ) -> Result<Option<Vec<usize>>, AllocError>
        requires search { search.old ≡ length self.now.graph.txns + length self.now.graph.versions }
        requires from { from < length self.now.graph.txns + length self.now.graph.versions }
        requires to { to < length self.now.graph.txns + length self.now.graph.versions }
        requires rising { NeverFalls self.now.graph (whole_kinds self.now) to from }
        ensures search { search.new ≡ search.old }
        ensures way { IfOk result (IsWayBackIfAny self.now from to) }
    {
        let allowed = NotAbove {
            rankings: self.rankings,
            to,
        };
        if !allowed.contains(from) {
            return Ok(None);
        }
        search.walk(self.alloc, &self.back, &allowed, from, to)
    }
}
