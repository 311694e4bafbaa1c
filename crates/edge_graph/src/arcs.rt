//! The arcs that a search for cycles goes over.

ghost use Rattle.std.specs.Prelude.{◌≡◌, ◌≤◌, length};
ghost use Rattle.edge_graph.specs.Made.{joined, AreWithin, split_at};

use crate::orders::LaterNodes;
use crate::rows::{Followed, Rows};
use crate::types::Dependencies;
use graph_search::arcs::{Arcs, Successors};
use std::marker::Model;

/// The arcs of some kinds of a graph. Its vertices are the transactions, by index, and after them
/// the versions, by number.
#[derive(Drop)]
pub struct GraphArcs<'g> {
    rows: &'g Rows,
    order: &'g LaterNodes,
    followed: Followed,
}

impl<'g> Model for GraphArcs<'g> {
    ghost use Rattle.std.specs.Prelude.{List, ℕ};
    ghost use Rattle.edge_graph.specs.Made.{joined, AreWithin};

    ghost Value = { List (List ℕ) };

    ghost view = { λ a. joined a.followed a.rows.now a.order.now };

    ghost invariant = { λ a. AreWithin (joined a.followed a.rows.now a.order.now) };
}

impl<'g> GraphArcs<'g> {
    pub(crate) fn new(rows: &'g Rows, order: &'g LaterNodes, dependencies: Dependencies) -> Self
        requires { AreWithin (joined dependencies rows.now order.now) }
        ensures { result ≡ joined dependencies rows.now order.now }
    {
        GraphArcs {
            rows,
            order,
            followed: Followed::new(dependencies),
        }
    }
}

impl Arcs for GraphArcs<'_> {
    ghost use Rattle.edge_graph.specs.Vertices.{graph_by};

    ghost graph = { graph_by };

    fn vertices(&self) -> usize {
        self.rows.len()
    }

    fn successors(&self, vertex: usize) -> Successors<'_> {
        Successors::new(
            self.rows.len(),
            self.rows.row(vertex, &self.followed),
            self.order.get(vertex),
        )
    }
}

/// The arcs of some kinds that leave transactions, and the arcs of others that leave versions.
#[derive(Drop)]
pub struct SplitArcs<'g> {
    txns: usize,
    of_txns: GraphArcs<'g>,
    of_versions: GraphArcs<'g>,
}

impl<'g> Model for SplitArcs<'g> {
    ghost use Rattle.std.specs.Prelude.{◌≡◌, ◌≤◌, List, ℕ, length};
    ghost use Rattle.edge_graph.specs.Made.{split_at};

    ghost Value = { List (List ℕ) };

    ghost view = { λ a. split_at a.txns a.of_txns a.of_versions };

    ghost invariant = { λ a. (a.txns ≤ length a.of_txns)
        × (length a.of_versions ≡ length a.of_txns) };
}

impl<'g> SplitArcs<'g> {
    /// The arcs of `of_txns` that leave the first vertices, and the arcs of `of_versions` that
    /// leave the others. The first vertices are the transactions.
    pub(crate) fn new(txns: usize, of_txns: GraphArcs<'g>, of_versions: GraphArcs<'g>) -> Self
        requires txns { txns ≤ length of_txns }
        requires versions { length of_versions ≡ length of_txns }
        ensures { result ≡ split_at txns of_txns.entry of_versions.entry }
    {
        SplitArcs {
            txns,
            of_txns,
            of_versions,
        }
    }
}

impl Arcs for SplitArcs<'_> {
    ghost use Rattle.edge_graph.specs.Vertices.{graph_by};

    ghost graph = { graph_by };

    fn vertices(&self) -> usize {
        self.of_txns.vertices()
    }

    #[inline(always)]
    fn successors(&self, vertex: usize) -> Successors<'_> {
        if vertex < self.txns {
            self.of_txns.successors(vertex)
        } else {
            self.of_versions.successors(vertex)
        }
    }
}
