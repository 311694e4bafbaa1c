//! Ranks of a graph's vertices, and the vertices that a search may enter.

ghost use Rattle.std.specs.Prelude.{◌≡◌, ◌<◌, length, IfOk};
ghost use Rattle.edge_graph.specs.Kinds.{kinds_of};
ghost use Rattle.edge_graph.specs.Vertices.{graph_by};
ghost use Rattle.cycle_find.specs.Ranked.{AreRanksOver, AreRanksWithin};
ghost use Rattle.cycle_find.specs.Sharing.{AreListed, AreSharing, leaving};

use crate::sharing::Shared;
use edge_graph::arcs::GraphArcs;
use edge_graph::graph::Graph;
use edge_graph::types::Dependencies;
use graph_search::arcs::{Arcs, Successors, Vertices};
use graph_search::ranks::Ranks;
use hist_types::types::Level;
use std::alloc::{AllocError, Global};

/// Ranks that don't fall along any arc of these dependencies and of the order of the level.
pub(crate) fn ranks_over(
    alloc: Global,
    graph: &Graph<'_, '_, '_>,
    dependencies: Dependencies,
    level: Level,
) -> Result<Ranks, AllocError>
    ensures { IfOk result (AreRanksOver graph.now (kinds_of dependencies level)) }
{
    Ranks::of(alloc, &graph.arcs(dependencies, level))
}

/// Ranks that don't fall along any such arc between two vertices of one coarse rank. Only vertices
/// that share theirs are searched.
pub(crate) fn ranks_within(
    alloc: Global,
    graph: &Graph<'_, '_, '_>,
    coarse: &Ranks,
    shared: &Shared,
    dependencies: Dependencies,
    level: Level,
) -> Result<Ranks, AllocError>
    requires coarse { AreRanksOver graph.now (kinds_of dependencies level) coarse.now }
    requires shared { AreSharing coarse.now shared.now }
    ensures { IfOk result (AreRanksWithin graph.now (kinds_of dependencies level) coarse.now) }
{
    let arcs = ArcsLeaving {
        arcs: graph.arcs(dependencies, level),
        some: shared,
    };
    Ranks::of_leaving(alloc, &arcs, shared.list())
}

/// The vertices that share their rank, the last one first.
fn from_last(alloc: Global, shared: &Shared) -> Result<Vec<u32>, AllocError>
    ensures { IfOk result (λ list. AreListed shared.now list.items) }
{
    let mut vertices = shared.list().to_vec(alloc)?;
    vertices.reverse();
    Ok(vertices)
}

/// Two more rankings of that kind.
#[derive(Drop)]
pub(crate) struct FarAndLate {
    /// By the highest that a vertex leads to.
    pub far: Ranks,
    /// By a search that begins at the last vertex. Of two transactions, neither of which leads to
    /// the other, it mostly ranks the later one higher.
    pub late: Ranks,
}

/// The two over the same arcs as ranks within the coarse ones, which give the first of them.
pub(crate) fn far_and_late(
    alloc: Global,
    graph: &Graph<'_, '_, '_>,
    coarse: &Ranks,
    shared: &Shared,
    ranks: &Ranks,
    dependencies: Dependencies,
    level: Level,
) -> Result<FarAndLate, AllocError>
    requires coarse { AreRanksOver graph.now (kinds_of dependencies level) coarse.now }
    requires shared { AreSharing coarse.now shared.now }
    requires ranks { AreRanksWithin graph.now (kinds_of dependencies level) coarse.now ranks.now }
    ensures far { IfOk result
        (λ both. AreRanksWithin graph.now (kinds_of dependencies level) coarse.now both.far) }
    ensures late { IfOk result
        (λ both. AreRanksWithin graph.now (kinds_of dependencies level) coarse.now both.late) }
{
    let arcs = ArcsLeaving {
        arcs: graph.arcs(dependencies, level),
        some: shared,
    };
    let far = ranks.far_leaving(alloc, &arcs, shared.list())?;
    let late = Ranks::of_leaving(alloc, &arcs, &from_last(alloc, shared)?)?;
    Ok(FarAndLate { far, late })
}

/// The arcs of a graph that leave some of its vertices.
#[derive(Drop)]
struct ArcsLeaving<'r> {
    arcs: GraphArcs<'r>,
    some: &'r Shared,
    ghost one_each: { length some.now ≡ length arcs },
}

impl Arcs for ArcsLeaving<'_> {
    ghost graph = { λ a. leaving (graph_by a.arcs) a.some.now };

    fn vertices(&self) -> usize {
        self.arcs.vertices()
    }

    fn successors(&self, vertex: usize) -> Successors<'_> {
        if self.some.contains(vertex) {
            self.arcs.successors(vertex)
        } else {
            Successors::new(self.arcs.vertices(), &[], &[])
        }
    }
}

/// Rankings for a search for closed walks.
#[derive(Clone, Copy)]
pub(crate) struct Rankings<'r> {
    /// Component numbers that don't fall along any arc of a closed walk.
    pub coarse: &'r Ranks,
    /// Finer ones: where `coarse` is the same, these don't fall along any arc of a closed walk
    /// either.
    pub ranks: &'r Ranks,
    /// Finer still: where `coarse` is the same, these don't fall along any arc of the way back.
    pub back: &'r Ranks,
    /// Nor do these two. They may have vertices the other way round that `back` put in an order for
    /// no arc's sake.
    pub far: &'r Ranks,
    pub late: &'r Ranks,
}

impl<'r> Rankings<'r> {
    /// For a way back over the arcs of the whole walk.
    pub fn alike(coarse: &'r Ranks, ranks: &'r Ranks) -> Self
        ensures coarse { result.coarse.now ≡ coarse.now }
        ensures ranks { result.ranks.now ≡ ranks.now }
        ensures back { result.back.now ≡ ranks.now }
        ensures far { result.far.now ≡ ranks.now }
        ensures late { result.late.now ≡ ranks.now }
    {
        Rankings {
            coarse,
            ranks,
            back: ranks,
            far: ranks,
            late: ranks,
        }
    }
}

/// The vertices that none of the rankings has above a certain one.
#[derive(Clone, Copy)]
pub(crate) struct NotAbove<'r> {
    pub rankings: Rankings<'r>,
    pub to: usize,
    ghost to_within: { to < length rankings.coarse.now },
    ghost ranks_each: { length rankings.ranks.now ≡ length rankings.coarse.now },
    ghost back_each: { length rankings.back.now ≡ length rankings.coarse.now },
    ghost far_each: { length rankings.far.now ≡ length rankings.coarse.now },
    ghost late_each: { length rankings.late.now ≡ length rankings.coarse.now },
}

impl Vertices for NotAbove<'_> {
    ghost use Rattle.cycle_find.specs.Ranked.{not_above};

    ghost members = { λ set. not_above set.rankings.coarse.now set.rankings.ranks.now
        set.rankings.back.now set.rankings.far.now set.rankings.late.now set.to };

    fn contains(&self, vertex: usize) -> bool {
        let Rankings {
            coarse,
            ranks,
            back,
            far,
            late,
        } = self.rankings;
        late.rank(vertex) <= late.rank(self.to)
            && back.rank(vertex) <= back.rank(self.to)
            && far.rank(vertex) <= far.rank(self.to)
            && ranks.rank(vertex) <= ranks.rank(self.to)
            && coarse.rank(vertex) <= coarse.rank(self.to)
    }
}
