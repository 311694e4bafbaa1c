//! Strongly connected components, by Tarjan's algorithm in Pearce's form, with no recursion.
//!
//! The search is proved to be safe and to end. What it finds is only a proposal: its callers check
//! it.

ghost use Rattle.std.specs.Prelude.{◌≡◌, ◌<◌, length, All, IfOk, OnOk};

use crate::arcs::Arcs;
use std::alloc::{AllocError, Global};

/// The number of a vertex that hasn't been reached.
const UNSEEN: u32 = u32::MAX;

/// A vertex on the way from a root to where the search is.
#[derive(Clone, Copy)]
struct Frame {
    vertex: u32,
    /// The index of the vertex among the pending vertices.
    place: u32,
    /// How many of the vertex's arcs were followed.
    followed: usize,
}

/// The state of the search.
#[derive(Drop)]
struct Components {
    /// By vertex. Of a pending vertex, the lowest index among the pending vertices of one that it
    /// is known to lead to. Of a vertex whose component is complete, the rank of the component,
    /// which is above the indexes of all pending vertices, so that it lowers no number.
    numbers: Vec<u32>,
    /// The vertices that were reached and whose component isn't complete yet, in the order in which
    /// they were reached.
    pending: Vec<u32>,
    path: Vec<Frame>,
    /// The rank of the next component. A component is complete after all that it leads to, so ranks
    /// count down.
    rank: u32,
    ghost in_pending: { All (λ vertex. vertex < length numbers.items) pending.items },
    ghost in_path: { All (λ frame. frame.vertex < length numbers.items) path.items },
}

/// A vertex or an index as a number of 32 bits. A graph that needs greater numbers is out of
/// memory.
pub(crate) fn number_of(place: usize) -> Result<u32, AllocError>
    ensures { IfOk result (λ number. number ≡ place) }
{
    u32::try_from(place).map_err(|_| AllocError)
}

impl Components {
    fn new(alloc: Global, vertices: usize) -> Result<Components, AllocError>
        ensures { IfOk result (λ components. length components.numbers.items ≡ vertices) }
    {
        let rank = number_of(vertices)?;
        Ok(Components {
            numbers: vec![in alloc; UNSEEN; vertices]?,
            pending: Vec::with_capacity(alloc, vertices)?,
            path: Vec::with_capacity(alloc, vertices)?,
            rank,
        })
    }

    /// Enters a vertex that hasn't been reached.
    fn enter(&mut self, vertex: usize) -> Result<(), AllocError>
        requires { vertex < length self.old.numbers.items }
        ensures { length self.new.numbers.items ≡ length self.old.numbers.items }
    {
        let place = number_of(self.pending.len())?;
        let number = number_of(vertex)?;
        self.numbers[vertex] = place;
        self.pending.push(number)?;
        self.path.push(Frame {
            vertex: number,
            place,
            followed: 0,
        })?;
        Ok(())
    }

    /// Lowers the number of a vertex that leads to one with this number.
    fn lower(&mut self, vertex: usize, number: u32)
        requires { vertex < length self.old.numbers.items }
        ensures { length self.new.numbers.items ≡ length self.old.numbers.items }
    {
        self.numbers[vertex] = self.numbers[vertex].min(number);
    }

    /// Makes a component of a vertex that leads nowhere.
    fn complete_alone(&mut self, vertex: usize)
        requires { vertex < length self.old.numbers.items }
        ensures { length self.new.numbers.items ≡ length self.old.numbers.items }
    {
        // There are no more components than vertices.
        self.rank = self.rank.saturating_sub(1);
        self.numbers[vertex] = self.rank;
    }

    /// Makes one component of the pending vertices from an index on.
    fn complete(&mut self, place: usize)
        ensures { length self.new.numbers.items ≡ length self.old.numbers.items }
    {
        self.rank = self.rank.saturating_sub(1);
        while self.pending.len() > place {
            let Some(vertex) = self.pending.pop() else {
                break;
            };
            self.numbers[vertex as usize] = self.rank;
        }
    }

    /// Goes back from a vertex whose arcs were all followed.
    fn leave(&mut self, frame: Frame)
        requires { frame.vertex < length self.old.numbers.items }
        ensures { length self.new.numbers.items ≡ length self.old.numbers.items }
    {
        let vertex = frame.vertex as usize;
        let number = self.numbers[vertex];
        if number == frame.place {
            self.complete(frame.place as usize);
        } else if let Some(parent) = self.path.last() {
            let parent = parent.vertex as usize;
            self.lower(parent, number);
        }
    }

    /// Follows the arcs of the last vertex on the path up to a vertex that hasn't been reached, and
    /// enters it, or goes back if there is none. Returns false if the path was empty.
    fn step<G: Arcs>(&mut self, graph: &G) -> Result<bool, AllocError>
        requires { (G.graph graph.now).count ≡ length self.old.numbers.items }
        ensures { length self.new.numbers.items ≡ length self.old.numbers.items }
    {
        let Some(frame) = self.path.pop() else {
            return Ok(false);
        };
        let vertex = frame.vertex as usize;
        let mut lowest = UNSEEN;
        let successors = graph.successors(vertex);
        for index in frame.followed..successors.len() {
            let next = successors.at(index);
            if self.numbers[next] != UNSEEN {
                lowest = lowest.min(self.numbers[next]);
            } else if graph.successors(next).is_empty() {
                self.complete_alone(next);
            } else {
                self.lower(vertex, lowest);
                self.path.push(Frame {
                    vertex: frame.vertex,
                    place: frame.place,
                    followed: index + 1,
                })?;
                self.enter(next)?;
                return Ok(true);
            }
        }
        self.lower(vertex, lowest);
        self.leave(frame);
        Ok(true)
    }

    /// Completes the components of all vertices that a root leads to.
    fn search<G: Arcs>(&mut self, graph: &G, root: usize) -> Result<(), AllocError>
        requires graph { (G.graph graph.now).count ≡ length self.old.numbers.items }
        requires root { root < length self.old.numbers.items }
        ensures { length self.new.numbers.items ≡ length self.old.numbers.items }
    {
        self.enter(root)?;
        // Each vertex is entered once and left once, so this ends long before.
        for _ in 0..u64::MAX {
            if !self.step(graph)? {
                break;
            }
        }
        Ok(())
    }

    /// Completes the components of a vertex and of all that it leads to, as far as they aren't
    /// complete.
    fn reach<G: Arcs>(&mut self, graph: &G, root: usize) -> Result<(), AllocError>
        requires graph { (G.graph graph.now).count ≡ length self.old.numbers.items }
        requires root { root < length self.old.numbers.items }
        ensures { length self.new.numbers.items ≡ length self.old.numbers.items }
    {
        if self.numbers[root] != UNSEEN {
            Ok(())
        } else if graph.successors(root).is_empty() {
            self.complete_alone(root);
            Ok(())
        } else {
            self.search(graph, root)
        }
    }
}

/// For each vertex the number of its strongly connected component. Numbers don't fall along any
/// arc.
pub(crate) fn component_ranks<G: Arcs>(alloc: Global, graph: &G) -> Result<Vec<u32>, AllocError>
    ensures { IfOk result (λ numbers. length numbers.items ≡ (G.graph graph.now).count) }
{
    let mut components = Components::new(alloc, graph.vertices())?;
    for root in 0..graph.vertices() {
        components.reach(graph, root)?;
    }
    Ok(components.numbers)
}

/// For these vertices and all that they lead to, the numbers of their strongly connected
/// components, which don't fall along any arc. The other vertices have the highest number.
pub(crate) fn component_ranks_from<G: Arcs>(
    alloc: Global,
    graph: &G,
    roots: &[u32],
) -> Result<Vec<u32>, AllocError>
    requires { All (λ root. root < (G.graph graph.now).count) roots.now }
    ensures { IfOk result (λ numbers. length numbers.items ≡ (G.graph graph.now).count) }
{
    let mut components = Components::new(alloc, graph.vertices())?;
    for root in roots {
        components.reach(graph, *root as usize)?;
    }
    Ok(components.numbers)
}
