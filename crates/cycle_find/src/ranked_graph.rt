//! Graphs that are ready for searches.

ghost use Rattle.std.specs.Prelude.{◌≡◌, IfOk};
ghost use Rattle.std.specs.Bool.{OnTrue};
ghost use Rattle.hist_types.specs.Phenomena.{IsShownBy};
ghost use Rattle.hist_types.specs.declared.types.Level.TheVariants.{Realtime};
ghost use Rattle.edge_graph.specs.Parts.{edges_in};
ghost use Rattle.cycle_find.specs.Found.{ShowNoneOverAny};
ghost use Rattle.cycle_find.specs.Ranked.{AreRanksAtAll};
ghost use Rattle.cycle_find.specs.Sharing.{AreSharing};
ghost use Rattle.cycle_find.specs.Tasks.{site_of};

use crate::kinds::uses_only;
use crate::ranked_level::RankedLevel;
use crate::ranking::{ranks_over, ranks_within};
use crate::settle::shows_none;
use crate::sharing::Shared;
use edge_graph::graph::Graph;
use edge_graph::types::Dependencies;
use graph_search::arcs::Arcs;
use graph_search::ranks::Ranks;
use hist_types::types::{Level, Phenomenon};
use std::alloc::{AllocError, Global};
use std::marker::Model;

/// A graph with what the searches for its cycles share.
#[derive(Drop)]
pub struct RankedGraph<'r, 'g, 'v, 'a> {
    alloc: Global,
    graph: &'r Graph<'g, 'v, 'a>,
    /// Ranks that fall along no arc at any level.
    ranks: Ranks,
    /// Which vertices share their rank with another one. All cycles are among them.
    shared: Shared,
    /// Dependencies with which no cycle at real time does without others, if there are such.
    acyclic: Option<Dependencies>,
}

impl<'r, 'g, 'v, 'a> Model for RankedGraph<'r, 'g, 'v, 'a> {
    ghost use Rattle.hist_types.specs.declared.types.Level.TheVariants.{Realtime};
    ghost use Rattle.edge_graph.specs.Parts.{Parts, edges_in};
    ghost use Rattle.cycle_find.specs.Found.{ShowNoneOverAny};
    ghost use Rattle.cycle_find.specs.Ranked.{AreRanksAtAll};
    ghost use Rattle.cycle_find.specs.Sharing.{AreSharing};

    ghost Value = { Parts };

    ghost view = { λ r. r.graph.now };

    ghost invariant = { λ r. AreRanksAtAll r.graph.now r.ranks
        × AreSharing r.ranks r.shared
        × ShowNoneOverAny r.acyclic (edges_in r.graph.now Realtime) };
}

/// Ranks that fall along no arc at any level.
fn ranks_at_all_levels(alloc: Global, graph: &Graph<'_, '_, '_>) -> Result<Ranks, AllocError>
    ensures { IfOk result (AreRanksAtAll graph.now) }
{
    let ranks = ranks_over(alloc, graph, Dependencies::All, Level::Realtime)?;
    // The order of each process goes along walks in real time, so these ranks serve for it too.
    // That is only checked. The other dependencies are those that the ranks are over.
    let in_process = graph.arcs(Dependencies::Ww, Level::Process);
    if ranks.hold_in(&in_process) {
        Ok(ranks)
    } else {
        Ranks::flat(alloc, in_process.vertices())
    }
}

/// The most dependencies for which one look at each of their edges settles that no cycle goes along
/// them and the order at real time alone, if there are such.
fn acyclic(
    alloc: Global,
    graph: &Graph<'_, '_, '_>,
    coarse: &Ranks,
    shared: &Shared,
) -> Result<Option<Dependencies>, AllocError>
    requires coarse { AreRanksAtAll graph.now coarse.now }
    requires shared { AreSharing coarse.now shared.now }
    ensures { IfOk result (λ some. ShowNoneOverAny some (edges_in graph.now Realtime)) }
{
    if shows_none(graph, Dependencies::All, Level::Realtime, coarse, coarse) {
        return Ok(Some(Dependencies::All));
    }
    for dependencies in [Dependencies::WrAndWw, Dependencies::Ww] {
        let ranks = ranks_within(alloc, graph, coarse, shared, dependencies, Level::Realtime)?;
        if shows_none(graph, dependencies, Level::Realtime, coarse, &ranks) {
            return Ok(Some(dependencies));
        }
    }
    Ok(None)
}

impl<'r, 'g, 'v, 'a> RankedGraph<'r, 'g, 'v, 'a> {
    /// Takes a few numbers for each vertex.
    pub fn new(alloc: Global, graph: &'r Graph<'g, 'v, 'a>) -> Result<Self, AllocError>
        ensures { IfOk result (λ ranked. ranked ≡ graph.now) }
    {
        let ranks = ranks_at_all_levels(alloc, graph)?;
        let shared = Shared::of(alloc, &ranks)?;
        let acyclic = acyclic(alloc, graph, &ranks, &shared)?;
        Ok(RankedGraph {
            alloc,
            graph,
            ranks,
            shared,
            acyclic,
        })
    }

    /// Whether looks at single edges settled that the phenomenon isn't shown at real time. Where
    /// they didn't, that says nothing.
    pub fn rules_out(&self, phenomenon: Phenomenon) -> bool
        ensures { OnTrue result (¬ IsShownBy phenomenon (edges_in self.now Realtime)) }
    {
        match self.acyclic {
            Some(dependencies) => uses_only(phenomenon, dependencies),
            None => false,
        }
    }

    /// The graph with what the searches at a level share.
    pub fn at(&self, level: Level) -> RankedLevel<'_, 'g, 'v, 'a>
        ensures { result ≡ site_of self.now level }
    {
        RankedLevel::new(self.alloc, self.graph, level, &self.ranks, &self.shared)
    }
}
