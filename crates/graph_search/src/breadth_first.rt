//! Breadth-first search.

ghost use Rattle.std.specs.Prelude.{◌≡◌, ◌+◌, ◌-◌, ℕ, ◌<◌, List, [], ◌∷◌, length, replicate, slice_set, true, false, option_map, IfOk, OnOk};
ghost use Rattle.std.specs.Bool.{OnTrue, OnFalse};
ghost use Rattle.graph_search.specs.Costs.{IsWalkToTargetIfAny};
ghost use Rattle.graph_search.specs.Graphs.{HasArcInto, IsWalk, IsWalkIfAny};

use crate::arcs::{Arcs, Vertices};
use crate::marks::Marks;
use std::alloc::{AllocError, Global};
use std::marker::Model;

/// A vertex that a search has reached.
#[derive(Clone, Copy)]
pub(crate) struct Visit {
    pub vertex: usize,
    /// The index in the queue of the vertex that this one was reached from.
    pub parent: usize,
}

/// The vertices that a search has reached.
#[derive(Drop)]
pub(crate) struct Reached {
    marks: Marks,
    /// The visits, in the order in which vertices were reached.
    queue: Vec<Visit>,
}

impl Reached {
    ghost use Rattle.graph_search.specs.Visits.{AreCheap, AreOpened, AreReached, EndsInOther, GoesOn, IsOpened, IsStep, vertex_at, parent_at};

    /// Begins a search at a vertex.
    fn start(&mut self, from: usize) -> Result<(), AllocError>
        requires { from < length self.old.marks }
        ensures count { length self.new.marks ≡ length self.old.marks }
        ensures marks { OnOk result
            (self.new.marks ≡ slice_set (replicate (length self.old.marks) false) from true) }
        ensures queue { OnOk result
            (self.new.queue.items ≡ record { vertex = from; parent = 0 } ∷ []) }
    {
        self.marks.clear();
        self.marks.mark(from);
        self.queue.clear();
        self.queue.push(Visit {
            vertex: from,
            parent: 0,
        })?;
        Ok(())
    }

    /// Reaches the successors of the vertex at an index in the queue, up to the first target that
    /// is new, and returns whether there was one. That target is then the last in the queue.
    fn open<G: Arcs, S: Vertices, T: Vertices>(
        &mut self,
        graph: &G,
        allowed: &S,
        targets: &T,
        at: usize,
    ) -> Result<bool, AllocError>
        requires graph { (G.graph graph.now).count ≡ length self.old.marks }
        requires allowed { (S.members allowed.now).count ≡ length self.old.marks }
        requires targets { (T.members targets.now).count ≡ length self.old.marks }
        requires reached { AreReached self.old.marks self.old.queue.items }
        requires at { at < length self.old.queue.items }
        ensures count { length self.new.marks ≡ length self.old.marks }
        ensures goes_on { IfOk result
            (GoesOn (HasArcInto (G.graph graph.now) (S.members allowed.now)) (T.members targets.now)
            (at + 1)
            self.old.marks self.old.queue.items self.new.marks self.new.queue.items) }
        ensures opened { IfOk result
            (λ found. OnFalse found
            (IsOpened (HasArcInto (G.graph graph.now) (S.members allowed.now))
            self.new.marks (vertex_at self.old.queue.items at))) }
    {
        let vertex = self.queue[at].vertex;
        let successors = graph.successors(vertex);
        for index in 0..successors.len() {
            let next = successors.at(index);
            if allowed.contains(next) && self.marks.mark(next) {
                self.queue.push(Visit {
                    vertex: next,
                    parent: at,
                })?;
                if targets.contains(next) {
                    return Ok(true);
                }
            }
        }
        Ok(false)
    }

    /// Opens the vertices from an index in the queue on, and the vertices that are reached from
    /// them, until nothing is new or a target is reached.
    fn open_all<G: Arcs, S: Vertices, T: Vertices>(
        &mut self,
        graph: &G,
        allowed: &S,
        targets: &T,
        from: usize,
    ) -> Result<bool, AllocError>
        requires graph { (G.graph graph.now).count ≡ length self.old.marks }
        requires allowed { (S.members allowed.now).count ≡ length self.old.marks }
        requires targets { (T.members targets.now).count ≡ length self.old.marks }
        requires reached { AreReached self.old.marks self.old.queue.items }
        ensures count { length self.new.marks ≡ length self.old.marks }
        ensures goes_on { IfOk result
            (GoesOn (HasArcInto (G.graph graph.now) (S.members allowed.now)) (T.members targets.now)
            (length self.new.queue.items)
            self.old.marks self.old.queue.items self.new.marks self.new.queue.items) }
        ensures opened { IfOk result
            (λ found. OnFalse found
            (AreOpened (HasArcInto (G.graph graph.now) (S.members allowed.now))
            self.new.marks self.new.queue.items from (length self.new.queue.items))) }
    {
        let mut at = from;
        while at < self.queue.len() {
            if self.open(graph, allowed, targets, at)? {
                return Ok(true);
            }
            at += 1;
        }
        Ok(false)
    }

    /// Opens the vertices that are now in the queue, from an index on, until a target is reached.
    fn open_layer<G: Arcs, S: Vertices, T: Vertices>(
        &mut self,
        graph: &G,
        allowed: &S,
        targets: &T,
        from: usize,
    ) -> Result<bool, AllocError>
        requires graph { (G.graph graph.now).count ≡ length self.old.marks }
        requires allowed { (S.members allowed.now).count ≡ length self.old.marks }
        requires targets { (T.members targets.now).count ≡ length self.old.marks }
        requires reached { AreReached self.old.marks self.old.queue.items }
        ensures count { length self.new.marks ≡ length self.old.marks }
        ensures goes_on { IfOk result
            (GoesOn (HasArcInto (G.graph graph.now) (S.members allowed.now)) (T.members targets.now)
            (length self.old.queue.items)
            self.old.marks self.old.queue.items self.new.marks self.new.queue.items) }
        ensures opened { IfOk result
            (λ found. OnFalse found
            (AreOpened (HasArcInto (G.graph graph.now) (S.members allowed.now))
            self.new.marks self.new.queue.items from (length self.old.queue.items))) }
    {
        for at in from..self.queue.len() {
            if self.open(graph, allowed, targets, at)? {
                return Ok(true);
            }
        }
        Ok(false)
    }

    /// Searches from a vertex layer by layer, each of which costs one more paid arc, until a target
    /// is reached. The target is then the last in the queue.
    fn search<F: Arcs, P: Arcs, S: Vertices, T: Vertices>(
        &mut self,
        free: &F,
        paid: &P,
        allowed: &S,
        targets: &T,
        from: usize,
        most: usize,
    ) -> Result<bool, AllocError>
        requires free { (F.graph free.now).count ≡ length self.old.marks }
        requires paid { (P.graph paid.now).count ≡ length self.old.marks }
        requires allowed { (S.members allowed.now).count ≡ length self.old.marks }
        requires targets { (T.members targets.now).count ≡ length self.old.marks }
        requires from { from < length self.old.marks }
        ensures count { length self.new.marks ≡ length self.old.marks }
        ensures reached { OnOk result (AreReached self.new.marks self.new.queue.items) }
        ensures first { OnOk result (vertex_at self.new.queue.items 0 ≡ from) }
        ensures cheap { OnOk result
            (AreCheap (HasArcInto (F.graph free.now) (S.members allowed.now))
            (HasArcInto (P.graph paid.now) (S.members allowed.now)) most self.new.queue.items) }
        ensures found { IfOk result
            (λ found. OnTrue found
            (EndsInOther (T.members targets.now) self.new.queue.items)) }
        ensures unfound { IfOk result
            (λ found. OnFalse found
            (IsWalkToTargetIfAny (HasArcInto (F.graph free.now) (S.members allowed.now))
            (HasArcInto (P.graph paid.now) (S.members allowed.now)) (T.members targets.now)
            most from None)) }
    {
        self.start(from)?;
        let mut layer = 0;
        for _cost in 0..most {
            if self.open_all(free, allowed, targets, layer)? {
                return Ok(true);
            }
            let next_layer = self.queue.len();
            if self.open_layer(paid, allowed, targets, layer)? {
                return Ok(true);
            }
            if self.queue.len() == next_layer {
                return Ok(false);
            }
            layer = next_layer;
        }
        self.open_all(free, allowed, targets, layer)
    }

    /// The way to the vertex at an index in the queue.
    fn walk_to(&self, alloc: Global, place: usize) -> Result<Vec<usize>, AllocError>
        requires place { place < length self.now.queue.items }
        requires earlier { (k : ℕ) → 0 < k → k < length self.now.queue.items
            → parent_at self.now.queue.items k < k }
        ensures { IfOk result
            (λ walk. IsWalk (IsStep self.now.queue.items)
            (vertex_at self.now.queue.items 0) (vertex_at self.now.queue.items place) walk.items) }
    {
        let mut walk = vec![in alloc; self.queue[place].vertex]?;
        let mut at = place;
        while at > 0 {
            at = self.queue[at].parent;
            walk.push(self.queue[at].vertex)?;
        }
        walk.reverse();
        Ok(walk)
    }
}

/// Breadth-first searches one after another, which share their memory. Each takes time for the
/// vertices that it reaches and for their arcs, and none for the rest of the graph.
#[derive(Drop)]
pub struct Search {
    reached: Reached,
}

/// The view of a search: how many vertices its graphs have.
impl Model for Search {
    ghost Value = { ℕ };

    ghost view = { λ search. length search.reached.marks };
}

impl Search {
    /// Makes room for searches in graphs with n vertices.
    pub fn new(alloc: Global, vertices: usize) -> Result<Search, AllocError>
        ensures { IfOk result (λ search. search ≡ vertices) }
    {
        let reached = Reached {
            marks: Marks::new(alloc, vertices)?,
            queue: Vec::new(alloc),
        };
        Ok(Search { reached })
    }

    /// A walk from one vertex to another along arcs into allowed vertices, if there is one. A
    /// vertex alone is a walk to itself.
    pub fn walk<G: Arcs, S: Vertices>(
        &mut self,
        alloc: Global,
        graph: &G,
        allowed: &S,
        from: usize,
        to: usize,
    ) -> Result<Option<Vec<usize>>, AllocError>
        requires graph { (G.graph graph.now).count ≡ self.old }
        requires allowed { (S.members allowed.now).count ≡ self.old }
        requires from { from < self.old }
        ensures count { self.new ≡ self.old }
        ensures walk { let leads = HasArcInto (G.graph graph.now) (S.members allowed.now) in
            IfOk result
            (λ found. IsWalkIfAny leads from to (option_map (λ walk. walk.items) found)) }
    {
        if from == to {
            return Ok(Some(vec![in alloc; from]?));
        }
        let target = Single {
            vertices: graph.vertices(),
            vertex: to,
        };
        self.walk_within(alloc, graph, graph, allowed, &target, from, 0)
    }

    /// A walk from a vertex to another one that is a target, if there is one along arcs into
    /// allowed vertices, with at most `most` paid arcs beside free ones.
    pub fn walk_within<F: Arcs, P: Arcs, S: Vertices, T: Vertices>(
        &mut self,
        alloc: Global,
        free: &F,
        paid: &P,
        allowed: &S,
        targets: &T,
        from: usize,
        most: usize,
    ) -> Result<Option<Vec<usize>>, AllocError>
        requires free { (F.graph free.now).count ≡ self.old }
        requires paid { (P.graph paid.now).count ≡ self.old }
        requires allowed { (S.members allowed.now).count ≡ self.old }
        requires targets { (T.members targets.now).count ≡ self.old }
        requires from { from < self.old }
        ensures count { self.new ≡ self.old }
        ensures walk { let leads_freely = HasArcInto (F.graph free.now) (S.members allowed.now) in
            let leads_paid = HasArcInto (P.graph paid.now) (S.members allowed.now) in
            IfOk result
            (λ found. IsWalkToTargetIfAny leads_freely leads_paid (T.members targets.now) most from
            (option_map (λ walk. walk.items) found)) }
    {
        if !self
            .reached
            .search(free, paid, allowed, targets, from, most)?
        {
            return Ok(None);
        }
        let last = self.reached.queue.len() - 1;
        Ok(Some(self.reached.walk_to(alloc, last)?))
    }
}

/// The set of one vertex.
#[derive(Clone, Copy)]
struct Single {
    vertices: usize,
    vertex: usize,
}

impl Vertices for Single {
    ghost use Rattle.graph_search.specs.Graphs.{single};

    ghost members = { λ set. single set.vertices set.vertex };

    fn contains(&self, vertex: usize) -> bool {
        vertex == self.vertex
    }
}
