//! Searches for the cycles of a graph at one level.

ghost use Rattle.std.specs.Prelude.{◌≡◌, IfOk};
ghost use Rattle.edge_graph.specs.Parts.{edges_in};
ghost use Rattle.hist_types.specs.declared.types.Phenomenon.TheVariants.{GSingle, G2Item};
ghost use Rattle.hist_types.specs.Phenomena.{Shows};
ghost use Rattle.hist_types.specs.Witness.{HasFewest};
ghost use Rattle.cycle_find.specs.Dependencies as walks;
ghost use Rattle.cycle_find.specs.Found.{HasFewestIfAny, IsFound, IsFoundByFewest, NeedsAtLeast, NeedsMoreThan};
ghost use Rattle.cycle_find.specs.Ranked.{AreRanksAtAll};
ghost use Rattle.cycle_find.specs.Sharing.{AreSharing};
ghost use Rattle.cycle_find.specs.Tasks.{site_of, task_of};

use crate::fewest::Fewest;
use crate::finder::Finder;
use crate::kinds::whole;
use crate::one_dependency::OneDependency;
use crate::ranking::{Rankings, far_and_late, ranks_within};
use crate::settle::shows_none;
use crate::sharing::Shared;
use crate::types::Walk;
use edge_graph::graph::Graph;
use edge_graph::types::Dependencies;
use graph_search::ranks::Ranks;
use hist_types::types::{Level, Phenomenon};
use std::alloc::{AllocError, Global};
use std::marker::Model;

/// A graph with what the searches at one level share.
#[derive(Drop)]
pub struct RankedLevel<'r, 'g, 'v, 'a> {
    alloc: Global,
    graph: &'r Graph<'g, 'v, 'a>,
    level: Level,
    /// Ranks that fall along no arc at the level.
    coarse: &'r Ranks,
    /// Which vertices share their rank with another one. All cycles are among them.
    shared: &'r Shared,
}

impl<'r, 'g, 'v, 'a> Model for RankedLevel<'r, 'g, 'v, 'a> {
    ghost use Rattle.cycle_find.specs.Prepared.{IsReady};
    ghost use Rattle.cycle_find.specs.Tasks.{Site, site_of};

    ghost Value = { Site };

    ghost view = { λ r. site_of r.graph.now r.level };

    ghost invariant = { λ r. IsReady (site_of r.graph.now r.level)
        r.coarse.now r.shared.now };
}

impl<'r, 'g, 'v, 'a> RankedLevel<'r, 'g, 'v, 'a> {
    pub(crate) fn new(
        alloc: Global,
        graph: &'r Graph<'g, 'v, 'a>,
        level: Level,
        coarse: &'r Ranks,
        shared: &'r Shared,
    ) -> Self
        requires coarse { AreRanksAtAll graph.now coarse.now }
        requires shared { AreSharing coarse.now shared.now }
        ensures { result ≡ site_of graph.now level }
    {
        RankedLevel {
            alloc,
            graph,
            level,
            coarse,
            shared,
        }
    }

    /// The level.
    pub fn level(&self) -> Level
        ensures { result ≡ self.now.level }
    {
        self.level
    }

    /// A closed walk that shows the phenomenon at the level, or none where the graph's edges have
    /// none. Of all such walks it has the fewest dependency edges; order edges count nothing. It is
    /// known that each has at least so many.
    ///
    /// It takes a few numbers for each vertex and arc, and no edges are stored but those of the
    /// walk.
    pub fn find(&self, phenomenon: Phenomenon, least: usize) -> Result<Option<Walk<'a>>, AllocError>
        requires { NeedsAtLeast least phenomenon (edges_in self.now.graph self.now.level) }
        ensures found { IfOk result (IsFound phenomenon (edges_in self.now.graph self.now.level)) }
        ensures fewest { IfOk result
            (HasFewestIfAny (task_of self.now.graph phenomenon self.now.level)) }
    {
        let found = self.find_by_one(phenomenon)?;
        if found.is_some() {
            return Ok(found);
        }
        let floor = least.max(2) - 1;
        match self.find_first(phenomenon)? {
            Some(first) => Ok(Some(self.find_fewest(phenomenon, first, floor)?)),
            None => Ok(None),
        }
    }

    /// A closed walk that shows the phenomenon with one dependency edge.
    fn find_by_one(&self, phenomenon: Phenomenon) -> Result<Option<Walk<'a>>, AllocError>
        ensures { IfOk result
            (IsFoundByFewest 1 (task_of self.now.graph phenomenon self.now.level)) }
    {
        OneDependency::new(self.alloc, self.graph, phenomenon, self.level).find()
    }

    /// A closed walk that shows the phenomenon, with any number of them.
    fn find_first(&self, phenomenon: Phenomenon) -> Result<Option<Walk<'a>>, AllocError>
        ensures { IfOk result (IsFound phenomenon (edges_in self.now.graph self.now.level)) }
    {
        match phenomenon {
            Phenomenon::G0 | Phenomenon::G1c => self.find_direct(phenomenon),
            Phenomenon::GSingle => self.find_single(),
            Phenomenon::G2Item => self.find_item(),
        }
    }

    /// A closed walk with the fewest, by one that shows the phenomenon. Each has more than the
    /// floor.
    fn find_fewest(
        &self,
        phenomenon: Phenomenon,
        first: Walk<'a>,
        floor: usize,
    ) -> Result<Walk<'a>, AllocError>
        requires { Shows phenomenon (edges_in self.now.graph self.now.level) first }
        ensures shows { IfOk result (Shows phenomenon (edges_in self.now.graph self.now.level)) }
        ensures fewest { NeedsMoreThan floor phenomenon (edges_in self.now.graph self.now.level)
            → IfOk result (HasFewest phenomenon (edges_in self.now.graph self.now.level)) }
    {
        if first.dependency_edges().saturating_sub(1) <= floor {
            return Ok(first);
        }
        Fewest::new(self.alloc, self.graph, phenomenon, self.level)?.find(first, floor)
    }

    /// A closed walk that shows G0 or G1c, with ranks over the edges that it may use.
    fn find_direct(&self, phenomenon: Phenomenon) -> Result<Option<Walk<'a>>, AllocError>
        requires { walks.way_back phenomenon ≡ walks.whole phenomenon }
        ensures { IfOk result (IsFound phenomenon (edges_in self.now.graph self.now.level)) }
    {
        let ranks = ranks_within(
            self.alloc,
            self.graph,
            self.coarse,
            self.shared,
            whole(phenomenon),
            self.level,
        )?;
        let rankings = Rankings::alike(self.coarse, &ranks);
        Finder::new(self.alloc, self.graph, phenomenon, self.level, rankings).find()
    }

    /// A closed walk that shows G2-item. One look at each edge, by ranks over all of them, mostly
    /// settles that there is none.
    fn find_item(&self) -> Result<Option<Walk<'a>>, AllocError>
        ensures { IfOk result (IsFound G2Item (edges_in self.now.graph self.now.level)) }
    {
        let all = Dependencies::All;
        let ranks = ranks_within(
            self.alloc,
            self.graph,
            self.coarse,
            self.shared,
            all,
            self.level,
        )?;
        if shows_none(self.graph, all, self.level, self.coarse, &ranks) {
            return Ok(None);
        }
        let rankings = Rankings::alike(self.coarse, &ranks);
        let finder = Finder::new(
            self.alloc,
            self.graph,
            Phenomenon::G2Item,
            self.level,
            rankings,
        );
        finder.find()
    }

    /// A closed walk that shows G-single. Where there is none, each pair of a version's reader and
    /// follower is looked at, and three rankings over the arcs of the way back settle most of them
    /// without a search.
    fn find_single(&self) -> Result<Option<Walk<'a>>, AllocError>
        ensures { IfOk result (IsFound GSingle (edges_in self.now.graph self.now.level)) }
    {
        let direct = Dependencies::WrAndWw;
        let back = ranks_within(
            self.alloc,
            self.graph,
            self.coarse,
            self.shared,
            direct,
            self.level,
        )?;
        let both = far_and_late(
            self.alloc,
            self.graph,
            self.coarse,
            self.shared,
            &back,
            direct,
            self.level,
        )?;
        let rankings = Rankings {
            coarse: self.coarse,
            ranks: self.coarse,
            back: &back,
            far: &both.far,
            late: &both.late,
        };
        let finder = Finder::new(
            self.alloc,
            self.graph,
            Phenomenon::GSingle,
            self.level,
            rankings,
        );
        finder.find()
    }
}
