//! The graph of a history's transactions.

ghost use Rattle.std.specs.Prelude.{◌≡◌, ◌↔◌, ℕ, ◌+◌, ◌++◌, ◌==◌, ◌<◌, length, All, Contains, IfOk, OnOk, OnErr};
ghost use Rattle.dep_edges.specs.Histories.{AreOfHistory};
ghost use Rattle.dep_edges.specs.OutEdges.{Begins};
ghost use Rattle.dep_edges.specs.Tables.{IsPlace, txn_at};
ghost use Rattle.hist_types.specs.declared.types.Level.TheVariants.{Plain};
ghost use Rattle.edge_graph.specs.Costs.{IsFreeArc, IsPaidArc, AreAsCheap};
ghost use Rattle.edge_graph.specs.Kinds.{kinds_of};
ghost use Rattle.edge_graph.specs.Made.{order_edges_over, order_edges_to, AddsDependencies, IsMade};
ghost use Rattle.edge_graph.specs.Parts.{IsOrderOf, IsMadeOf, AddsEdgesFrom};
ghost use Rattle.edge_graph.specs.Vertices.{IsArc, AreArcs, AreArcsThat, RwByVersions};
ghost use Rattle.edge_graph.specs.Walks.{IsEdgeIfAny, IsOrderEdgeIfAny, IsTxnWalk, AreEdgesAlong};
ghost use Rattle.edge_graph.specs.declared.types.Dependencies.TheVariants.{Rw};

use crate::arcs::{GraphArcs, SplitArcs};
use crate::layout;
use crate::orders::Orders;
use crate::rows::Rows;
use crate::types::{Dependencies, Kinds};
use dep_edges::deps::Deps;
use dep_edges::edge::{Edge, Label};
use dep_edges::history::History;
use hist_types::types::Level;
use order_frontier::types::Order;
use std::alloc::{AllocError, Global};
use std::marker::Model;
use txn_pairs::types::Txn;

/// A history's transactions with their dependency edges and, of an order, the edges to nodes. A
/// transaction goes by `place`, its index in the history. No edge is stored with its label; what is
/// stored are the arcs of a search for cycles, which are linear in the history.
pub struct Graph<'g, 'v, 'a> {
    alloc: Global,
    deps: &'g Deps<'v, 'a>,
    history: &'g History<'v, 'a>,
    order: &'g Order,
    rows: Rows,
    orders: Orders,
}

// By hand: a derived drop is inlined at every exit, which slows the prover (CONTRIBUTING.md).
impl Drop for Graph<'_, '_, '_> {
    fn drop(self) {
        let Graph {
            alloc: _,
            deps: _,
            history: _,
            order: _,
            rows: _,
            orders: _,
        } = self;
    }
}

impl<'g, 'v, 'a> Model for Graph<'g, 'v, 'a> {
    ghost use Rattle.edge_graph.specs.Made.{parts_of, IsMade};
    ghost use Rattle.edge_graph.specs.Parts.{Parts};

    ghost Value = { Parts };

    ghost view = { λ g. parts_of g.history.now g.order.now };

    ghost invariant = { λ g. IsMade g.deps.now g.history.now g.order.now g.rows g.orders };
}

/// Appends the dependency edges of the kinds that leave the transaction.
fn add_dependencies<'a>(
    alloc: Global,
    deps: &Deps<'_, 'a>,
    place: usize,
    kinds: Kinds,
    out: &mut Vec<Edge<'a>>,
) -> Result<(), AllocError>
    requires { IsPlace deps.now.txns place }
    ensures ok { OnOk result (AddsDependencies deps.now kinds place out.old.items out.new.items) }
    ensures err { OnErr result (Begins out.old.items out.new.items) }
{
    let mut found = Vec::new(alloc);
    deps.edges_from(place, &mut found)?;
    for edge in found {
        if kinds.includes(edge.label()) {
            out.push(edge)?;
        }
    }
    Ok(())
}

/// Appends the order edges of the level from one transaction to another.
fn add_order_edge<'a>(
    level: Level,
    from: &Txn<'_>,
    to: &Txn<'_>,
    out: &mut Vec<Edge<'a>>,
) -> Result<(), AllocError>
    ensures ok { OnOk result
        (out.new.items ≡ out.old.items ++ order_edges_to level from.now to.now) }
    ensures err { OnErr result (Begins out.old.items out.new.items) }
{
    let label = match level {
        Level::Plain => return Ok(()),
        Level::Process => Label::Process {
            process: from.process(),
        },
        Level::Realtime => match from.completion() {
            None => return Ok(()),
            Some(completion) => Label::Realtime {
                completion,
                invocation: to.invocation(),
            },
        },
    };
    out.push(Edge::new(from.invocation(), to.invocation(), label))?;
    Ok(())
}

/// Appends the order edges of the level from a transaction to those at the indexes.
fn add_order_edges<'a>(
    txns: &[Txn<'_>],
    level: Level,
    from: usize,
    places: &[u32],
    out: &mut Vec<Edge<'a>>,
) -> Result<(), AllocError>
    requires from { IsPlace txns.now from }
    requires places { All (IsPlace txns.now) places.now }
    ensures ok { OnOk result
        (out.new.items ≡ out.old.items ++ order_edges_over txns.now level from places.now) }
    ensures err { OnErr result (Begins out.old.items out.new.items) }
{
    for place in places {
        add_order_edge(level, &txns[from], &txns[*place as usize], out)?;
    }
    Ok(())
}

impl<'g, 'v, 'a> Graph<'g, 'v, 'a> {
    /// The graph over the history's dependency edges and an order of its transactions, with all of
    /// their pairs or thinned.
    pub fn new(alloc: Global, deps: &'g Deps<'v, 'a>, order: &'g Order) -> Result<Self, AllocError>
        requires { IsOrderOf deps.now.txns order.now }
        ensures { IfOk result (IsMadeOf deps.now.table.keys deps.now.txns order.now) }
    {
        let history = deps.history();
        let rows = layout::rows(alloc, deps, history)?;
        let orders = Orders::new(alloc, deps, order)?;
        Ok(Graph {
            alloc,
            deps,
            history,
            order,
            rows,
            orders,
        })
    }

    /// How many transactions there are.
    pub fn len(&self) -> usize
        ensures { result ≡ length self.now.txns }
    {
        self.history.txns().len()
    }

    /// Whether there is no transaction.
    pub fn is_empty(&self) -> bool
        ensures { result ≡ (length self.now.txns == 0) }
    {
        self.len() == 0
    }

    /// The transaction at an index.
    pub fn txn(&self, place: usize) -> &'v Txn<'a>
        requires { IsPlace self.now.txns place }
        ensures { result.now ≡ txn_at self.now.txns place }
    {
        self.history.txn(place)
    }

    /// The indexes of the transactions that lead to the vertex of a version, which are those that
    /// read it.
    pub fn readers(&self, vertex: usize) -> &'v [u32]
        requires version { ¬ IsPlace self.now.txns vertex }
        requires vertex { vertex < length self.now.txns + length self.now.versions }
        ensures readers { (place : ℕ)
            → Contains result.now place ↔ IsArc self.now (kinds_of Rw Plain) place vertex }
        ensures within { All (IsPlace self.now.txns) result.now }
    {
        self.history.readers(vertex - self.history.txns().len())
    }

    /// Appends the edges of the kinds that leave the transaction. Out of memory leaves what was
    /// there.
    pub fn edges_from(
        &self,
        place: usize,
        kinds: Kinds,
        out: &mut Vec<Edge<'a>>,
    ) -> Result<(), AllocError>
        requires { IsPlace self.now.txns place }
        ensures ok { OnOk result (AddsEdgesFrom self.now kinds place out.old.items out.new.items) }
        ensures err { OnErr result (out.new.items ≡ out.old.items) }
    {
        let before = out.len();
        let added = self.add_edges(place, kinds, out);
        if added.is_err() {
            out.truncate(before);
        }
        added
    }

    fn add_edges(
        &self,
        place: usize,
        kinds: Kinds,
        out: &mut Vec<Edge<'a>>,
    ) -> Result<(), AllocError>
        requires { IsPlace self.now.txns place }
        ensures ok { OnOk result (AddsEdgesFrom self.now kinds place out.old.items out.new.items) }
        ensures err { OnErr result (Begins out.old.items out.new.items) }
    {
        add_dependencies(self.alloc, self.deps, place, kinds, out)?;
        let later = self.orders.at(kinds.level).get(place);
        add_order_edges(self.history.txns(), kinds.level, place, later, out)
    }

    /// The arcs of these dependencies and of the order of the level, for a search.
    ///
    /// An rw edge joins two transactions exactly where the first leads to a version that leads to
    /// the second.
    pub fn arcs(&self, dependencies: Dependencies, level: Level) -> GraphArcs<'_>
        ensures arcs { AreArcs self.now (kinds_of dependencies level) result }
        ensures rw { RwByVersions self.now }
        ensures kept { AreOfHistory self.now.txns }
    {
        GraphArcs::new(&self.rows, self.orders.at(level), dependencies)
    }

    /// The free arcs of these dependencies and of the order of the level: the arcs of the order,
    /// and those that leave versions.
    pub fn free_arcs(&self, dependencies: Dependencies, level: Level) -> SplitArcs<'_>
        ensures { AreArcsThat self.now (IsFreeArc self.now dependencies level) result }
    {
        SplitArcs::new(
            self.len(),
            self.arcs(Dependencies::None, level),
            self.arcs(dependencies, Level::Plain),
        )
    }

    /// The paid arcs of these dependencies: those that leave transactions.
    pub fn paid_arcs(&self, dependencies: Dependencies) -> SplitArcs<'_>
        ensures { AreArcsThat self.now (IsPaidArc self.now dependencies) result }
    {
        SplitArcs::new(
            self.len(),
            self.arcs(dependencies, Level::Plain),
            self.arcs(Dependencies::None, Level::Plain),
        )
    }

    /// An edge of the kinds from one transaction to another, if there is one; an order edge, if one
    /// leads there. All edges that leave the first transaction are looked at.
    pub fn edge_between(
        &self,
        from: usize,
        to: usize,
        kinds: Kinds,
    ) -> Result<Option<Edge<'a>>, AllocError>
        requires from { IsPlace self.now.txns from }
        requires to { IsPlace self.now.txns to }
        ensures edge { IfOk result (IsEdgeIfAny self.now kinds from to) }
        ensures order { IfOk result (IsOrderEdgeIfAny self.now kinds.level from to) }
    {
        let invocation = self.history.txn(to).invocation();
        let order = Kinds::of(Dependencies::None, kinds.level);
        let mut leaving = Vec::new(self.alloc);
        self.edges_from(from, kinds, &mut leaving)?;
        let mut found = None;
        for edge in leaving {
            if edge.to() == invocation && (found.is_none() || order.includes(edge.label())) {
                found = Some(edge);
            }
        }
        Ok(found)
    }

    /// The edges of a walk over the arcs of these dependencies and of the order of the level, from
    /// a transaction to a transaction. Where an order edge leads to the next transaction, it is the
    /// one that is taken.
    pub fn edges_along(
        &self,
        walk: &[usize],
        dependencies: Dependencies,
        level: Level,
    ) -> Result<Vec<Edge<'a>>, AllocError>
        requires { IsTxnWalk self.now (kinds_of dependencies level) walk.now }
        ensures edges { IfOk result
            (λ es. AreEdgesAlong self.now (kinds_of dependencies level) walk.now es.items) }
        ensures cheap { IfOk result
            (λ es. AreAsCheap self.now dependencies level walk.now es.items) }
    {
        let kinds = Kinds::of(dependencies, level);
        let mut edges = Vec::with_capacity(self.alloc, walk.len())?;
        let mut from = walk[0];
        for vertex in walk {
            // After the transactions come the versions, which lead on to the end of an rw edge.
            if *vertex < self.history.txns().len() && *vertex != from {
                let edge = self.edge_between(from, *vertex, kinds)?;
                edges.push(edge.unwrap())?;
                from = *vertex;
            }
        }
        Ok(edges)
    }
}
