//! Laws of this crate's definitions: the contracts of functions that do nothing.

ghost use Rattle.std.specs.Prelude.{◌≡◌, ◌≤◌, ◌++◌, ◌↔◌, ℕ, List, map, All, Contains, IsTrue, IsFalse};
ghost use Rattle.graph_search.specs.Costs.{LeadsWithin, IsWalkWithin};
ghost use Rattle.graph_search.specs.Graphs.{IsWalk};
ghost use Rattle.hist_types.specs.Edges.{Edge, dependency_edges, edges_at};
ghost use Rattle.hist_types.specs.ThinnedOrder.{thinned_edges};
ghost use Rattle.hist_types.specs.Phenomena.{is_ww, is_wr, is_rw, is_order};
ghost use Rattle.hist_types.specs.Transactions.{Transaction};
ghost use Rattle.hist_types.specs.Witness.{dependencies_in};
ghost use Rattle.hist_types.specs.declared.types.KeyOrder.{KeyOrder};
ghost use Rattle.hist_types.specs.declared.types.Level.{Level};
ghost use Rattle.hist_types.specs.declared.types.Level.TheVariants.{Plain};
ghost use Rattle.order_frontier.specs.Predecessors.{Before, HasOrderEdges, HasThinnedEdges, NoPredecessorTwice, name_of, names};
ghost use Rattle.dep_edges.specs.Histories.{AreOfHistory};
ghost use Rattle.dep_edges.specs.Tables.{IsPlace};
ghost use Rattle.edge_graph.specs.Costs.{IsFreeArc, IsPaidArc};
ghost use Rattle.edge_graph.specs.Kinds.{kinds_of, AreAmong};
ghost use Rattle.edge_graph.specs.Parts.{Parts, IsOrderOf, IsMadeOf, HasEdge, edges_in};
ghost use Rattle.edge_graph.specs.Vertices.{IsArc, RwByVersions};
ghost use Rattle.edge_graph.specs.Walks.{IsEdgeOf, HasEdgeBetween, IsDirectArc, IsWayByVersion, HasDirectArc, HasWayByVersion, AreEdgesBetween, HasWalkBetween};
ghost use Rattle.edge_graph.specs.declared.types.Kinds.{Kinds};
ghost use Rattle.edge_graph.specs.declared.types.Dependencies.{Dependencies};
ghost use Rattle.edge_graph.specs.declared.types.Dependencies.TheVariants.{Ww, Wr, Rw};

/// A graph can be made over the order of all pairs and over the thinned one.
pub fn orders_of_a_history()
    ensures all_pairs { (ts : List Transaction) → (order : List Before) → HasOrderEdges ts order
        → All NoPredecessorTwice order → names order ≡ map name_of ts → IsOrderOf ts order }
    ensures thinned { (ts : List Transaction) → (order : List Before) → HasThinnedEdges ts order
        → All NoPredecessorTwice order → names order ≡ map name_of ts → IsOrderOf ts order }
{}

/// The list of a graph's edges has exactly its edges. Dependency edges are edges of every level,
/// and plain has no others.
pub fn edges_listed()
    ensures listed { (g : Parts) → (level : Level) → (e : Edge)
        → Contains (edges_in g level) e ↔ HasEdge g level e }
    ensures plain { (g : Parts) → (e : Edge)
        → Contains (edges_in g Plain) e ↔ Contains (dependency_edges g.keys g.txns) e }
    ensures levels { (g : Parts) → (level : Level) → (e : Edge)
        → Contains (edges_in g Plain) e ↔ (Contains (edges_in g level) e × IsFalse (is_order e)) }
{}

/// Over all pairs, the graph of a history has the edges that phenomena are defined by; over the
/// thinned order, it has edges that show the same phenomena.
pub fn edges_of_a_history()
    ensures all_pairs { (keys : KeyOrder) (ts : List Transaction) → (order : List Before) → (g : Parts)
        → AreOfHistory ts → IsMadeOf keys ts order g → HasOrderEdges ts order
        → (level : Level) → (e : Edge)
        → Contains (edges_in g level) e ↔ Contains (edges_at keys level ts) e }
    ensures thinned { (keys : KeyOrder) (ts : List Transaction) → (order : List Before) → (g : Parts)
        → AreOfHistory ts → IsMadeOf keys ts order g → HasThinnedEdges ts order
        → (level : Level) → (e : Edge)
        → Contains (edges_in g level) e
        ↔ Contains (dependency_edges keys ts ++ thinned_edges level ts) e }
{}

/// At plain the edges of one kind of dependencies are the edges with its label.
pub fn edges_of_one_kind()
    ensures ww { (g : Parts) → (e : Edge) → IsEdgeOf g (kinds_of Ww Plain) e → IsTrue (is_ww e) }
    ensures wr { (g : Parts) → (e : Edge) → IsEdgeOf g (kinds_of Wr Plain) e → IsTrue (is_wr e) }
    ensures rw { (g : Parts) → (e : Edge) → IsEdgeOf g (kinds_of Rw Plain) e → IsTrue (is_rw e) }
{}

/// Arcs of fewer dependencies are arcs of more at the same level, and arcs of plain are arcs of
/// each level.
pub fn arcs_of_more_dependencies()
    ensures level { (g : Parts) → (few more : Dependencies) → AreAmong few more
        → (level : Level) → (v w : ℕ)
        → IsArc g (kinds_of few level) v w → IsArc g (kinds_of more level) v w }
    ensures plain { (g : Parts) → (few more : Dependencies) → AreAmong few more
        → (level : Level) → (v w : ℕ)
        → IsArc g (kinds_of few Plain) v w → IsArc g (kinds_of more level) v w }
{}

/// A ww or wr edge has an arc between its two transactions, and an rw edge a way by a version.
pub fn arcs_of_edges()
    ensures ww { (g : Parts) → (level : Level) → (e : Edge) → Contains (edges_in g level) e
        → IsTrue (is_ww e) → HasDirectArc g Ww e }
    ensures wr { (g : Parts) → (level : Level) → (e : Edge) → Contains (edges_in g level) e
        → IsTrue (is_wr e) → HasDirectArc g Wr e }
    ensures rw { (g : Parts) → RwByVersions g
        → (level : Level) → (e : Edge) → Contains (edges_in g level) e
        → IsTrue (is_rw e) → HasWayByVersion g Rw e }
{}

/// An arc between two transactions represents an edge, and a way by a version from one to another
/// an rw edge.
pub fn edges_of_arcs()
    ensures direct { (g : Parts) → (kinds : Kinds) → (from to : ℕ)
        → IsDirectArc g kinds from to → HasEdgeBetween g kinds from to }
    ensures rw { (g : Parts) → AreOfHistory g.txns → RwByVersions g
        → (kinds : Kinds) → (from version to : ℕ)
        → IsWayByVersion g kinds from version to → HasEdgeBetween g kinds from to }
{}

/// Where edges lead from one transaction to another, there is a walk over the arcs of their kinds.
pub fn walks_over_arcs()
    ensures { (g : Parts) → AreOfHistory g.txns → RwByVersions g
        → (kinds : Kinds) → (from to : ℕ) → IsPlace g.txns from → IsPlace g.txns to
        → (es : List Edge) → AreEdgesBetween g kinds from to es → HasWalkBetween g kinds from to }
{}

/// A walk over arcs that cost nothing or one is a walk over the arcs of these dependencies and of
/// the order of the level.
pub fn walks_of_costs()
    ensures { (g : Parts) → (d : Dependencies) → (level : Level) → (most from to : ℕ)
        → (walk : List ℕ) → IsWalkWithin (IsFreeArc g d level) (IsPaidArc g d) most from to walk
        → IsWalk (IsArc g (kinds_of d level)) from to walk }
{}

/// Where edges lead from one transaction to another, a walk over their arcs costs no more than they
/// have dependencies.
pub fn cheap_walks_over_arcs()
    ensures { (g : Parts) → AreOfHistory g.txns → RwByVersions g
        → (d : Dependencies) → (level : Level) → (from to : ℕ)
        → IsPlace g.txns from → IsPlace g.txns to
        → (es : List Edge) → AreEdgesBetween g (kinds_of d level) from to es
        → (most : ℕ) → dependencies_in es ≤ most
        → (rest : List ℕ)
        × LeadsWithin (IsFreeArc g d level) (IsPaidArc g d) most from rest to }
{}
