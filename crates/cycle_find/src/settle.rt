//! One look at each dependency edge, which settles that there is no cycle where ranks rise along
//! all of them.

ghost use Rattle.std.specs.Prelude.{◌≡◌, ◌+◌, ◌<◌, length};
ghost use Rattle.std.specs.Bool.{OnTrue};
ghost use Rattle.dep_edges.specs.Histories.{AreOfHistory};
ghost use Rattle.dep_edges.specs.Tables.{IsPlace};
ghost use Rattle.edge_graph.specs.Kinds.{kinds_of};
ghost use Rattle.edge_graph.specs.Parts.{edges_in};
ghost use Rattle.edge_graph.specs.Vertices.{IsArc, RwByVersions};
ghost use Rattle.hist_types.specs.declared.types.Level.TheVariants.{Plain};
ghost use Rattle.cycle_find.specs.Found.{ShowNoneOver};
ghost use Rattle.cycle_find.specs.Ranked.{AreRanksAtAll, AreRanksOver, AreRanksWithin, ranking_of};
ghost use Rattle.cycle_find.specs.Ways.{IsAbove, RisesBy, RisesFrom, Rises};

use edge_graph::arcs::GraphArcs;
use edge_graph::graph::Graph;
use edge_graph::types::Dependencies;
use graph_search::arcs::Arcs;
use graph_search::ranks::Ranks;
use hist_types::types::Level;
use std::marker::Model;

/// Whether one look at each edge of these dependencies settles that no cycle goes along them and
/// the order of the level alone. False settles nothing.
pub(crate) fn shows_none(
    graph: &Graph<'_, '_, '_>,
    dependencies: Dependencies,
    level: Level,
    coarse: &Ranks,
    ranks: &Ranks,
) -> bool
    requires coarse { AreRanksAtAll graph.now coarse.now }
    requires ranks { AreRanksWithin graph.now (kinds_of dependencies level) coarse.now ranks.now }
    ensures { OnTrue result (ShowNoneOver dependencies (edges_in graph.now level)) }
{
    RankedEdges::new(graph, dependencies, coarse, ranks).rise()
}

/// Dependency edges of a graph, and two ranks of each vertex.
#[derive(Drop)]
struct RankedEdges<'r, 'g, 'v, 'a> {
    graph: &'r Graph<'g, 'v, 'a>,
    dependencies: Dependencies,
    arcs: GraphArcs<'r>,
    coarse: &'r Ranks,
    /// Finer ones: where `coarse` is the same, these don't fall along any of the edges either.
    ranks: &'r Ranks,
}

impl<'r, 'g, 'v, 'a> Model for RankedEdges<'r, 'g, 'v, 'a> {
    ghost use Rattle.cycle_find.specs.Prepared.{AreRanked};
    ghost use Rattle.cycle_find.specs.Ranked.{Ranking, ranking_of};

    ghost Value = { Ranking };

    ghost view = { λ r. ranking_of r.graph.now r.dependencies r.coarse.now r.ranks.now };

    ghost invariant = { λ r. AreRanked
        (ranking_of r.graph.now r.dependencies r.coarse.now r.ranks.now) r.arcs };
}

impl<'r, 'g, 'v, 'a> RankedEdges<'r, 'g, 'v, 'a> {
    fn new(
        graph: &'r Graph<'g, 'v, 'a>,
        dependencies: Dependencies,
        coarse: &'r Ranks,
        ranks: &'r Ranks,
    ) -> Self
        requires coarse { AreRanksOver graph.now (kinds_of dependencies Plain) coarse.now }
        requires ranks { AreRanksWithin graph.now (kinds_of dependencies Plain) coarse.now ranks.now }
        ensures view { result ≡ ranking_of graph.now dependencies coarse.now ranks.now }
        ensures kept { AreOfHistory graph.now.txns }
        ensures rw { RwByVersions graph.now }
    {
        RankedEdges {
            graph,
            dependencies,
            arcs: graph.arcs(dependencies, Level::Plain),
            coarse,
            ranks,
        }
    }

    /// Whether one of the two ranks rises along every such edge.
    fn rise(&self) -> bool
        ensures { OnTrue result (Rises self.now) }
    {
        for from in 0..self.graph.len() {
            if !self.rise_from(from) {
                return false;
            }
        }
        true
    }

    /// Whether one does along those that leave the transaction.
    fn rise_from(&self, from: usize) -> bool
        requires { IsPlace self.now.graph.txns from }
        ensures { OnTrue result (RisesFrom self.now from) }
    {
        let successors = self.arcs.successors(from);
        for index in 0..successors.len() {
            if !self.rise_by(from, successors.at(index)) {
                return false;
            }
        }
        true
    }

    /// Whether one does along those that leave the transaction along the arc to this vertex.
    fn rise_by(&self, from: usize, by: usize) -> bool
        requires from { IsPlace self.now.graph.txns from }
        requires by { IsArc self.now.graph (kinds_of self.now.dependencies Plain) from by }
        ensures { OnTrue result (RisesBy self.now from by) }
    {
        if self.is_above(by, from) {
            true
        } else if by < self.graph.len() {
            false
        } else {
            self.rise_by_version(from, by)
        }
    }

    /// Whether one does along the rw edges from the transaction, which reads the version, to
    /// others.
    fn rise_by_version(&self, from: usize, version: usize) -> bool
        requires from { IsPlace self.now.graph.txns from }
        requires version { ¬ IsPlace self.now.graph.txns version }
        requires by { IsArc self.now.graph (kinds_of self.now.dependencies Plain) from version }
        ensures { OnTrue result (RisesBy self.now from version) }
    {
        let successors = self.arcs.successors(version);
        for index in 0..successors.len() {
            let to = successors.at(index);
            // What a transaction installs after its own read makes no edge.
            if to != from && !self.is_above(to, from) {
                return false;
            }
        }
        true
    }

    /// Whether one of the two ranks of a vertex is higher than that of the transaction.
    fn is_above(&self, vertex: usize, from: usize) -> bool
        requires vertex { vertex < length self.now.graph.txns + length self.now.graph.versions }
        requires from { IsPlace self.now.graph.txns from }
        ensures { OnTrue result (IsAbove self.now from vertex) }
    {
        self.coarse.rank(vertex) > self.coarse.rank(from)
            || self.ranks.rank(vertex) > self.ranks.rank(from)
    }
}
