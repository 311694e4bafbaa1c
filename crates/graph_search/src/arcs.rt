//! What a search asks of a graph, and of a set of its vertices.

ghost use Rattle.std.specs.Prelude.{◌≡◌, ◌==◌, ◌<◌, ◌++◌, All, length, slice_index};
ghost use Rattle.graph_search.specs.Graphs.{Graph, Leaving, VertexSet};

use std::marker::Model;

/// The successors of a vertex: two lists of vertices, one after the other.
#[derive(Drop)]
pub struct Successors<'a> {
    /// How many vertices the graph has.
    vertices: usize,
    first: &'a [u32],
    second: &'a [u32],
}

impl<'a> Model for Successors<'a> {
    ghost use Rattle.std.specs.Prelude.{◌<◌, ◌++◌, All};
    ghost use Rattle.graph_search.specs.Graphs.{Leaving};

    ghost Value = { Leaving };

    ghost view = { λ s. record { count = s.vertices; to = s.first.now ++ s.second.now } };

    ghost invariant = { λ s. All (λ v. v < s.vertices) s.first.now
        × All (λ v. v < s.vertices) s.second.now };
}

impl<'a> Successors<'a> {
    /// The successors of a vertex of a graph with n vertices.
    pub fn new(vertices: usize, first: &'a [u32], second: &'a [u32]) -> Self
        requires first { All (λ v. v < vertices) first.now }
        requires second { All (λ v. v < vertices) second.now }
        ensures { result ≡ record { count = vertices; to = first.now ++ second.now } }
    {
        Successors {
            vertices,
            first,
            second,
        }
    }

    /// How many successors there are.
    pub fn len(&self) -> usize
        ensures { result ≡ length self.now.to }
    {
        self.first.len() + self.second.len()
    }

    /// Whether there is no successor.
    pub fn is_empty(&self) -> bool
        ensures { result ≡ (length self.now.to == 0) }
    {
        self.len() == 0
    }

    /// The successor with this index.
    pub fn at(&self, index: usize) -> usize
        requires { index < length self.now.to }
        ensures within { result < self.now.count }
        ensures successor { result ≡ slice_index self.now.to index }
    {
        if index < self.first.len() {
            self.first[index] as usize
        } else {
            self.second[index - self.first.len()] as usize
        }
    }
}

/// A directed graph whose vertices are the numbers from 0 on.
pub trait Arcs {
    /// The graph that has these arcs.
    ghost graph: { Self → Graph };

    /// How many vertices the graph has.
    fn vertices(&self) -> usize
        ensures { result ≡ (graph self.now).count };

    /// The successors of a vertex.
    fn successors(&self, vertex: usize) -> Successors<'_>
        requires { vertex < (graph self.now).count }
        ensures { result
            ≡ record { count = (graph self.now).count; to = (graph self.now).successors vertex } };
}

/// A set of vertices.
pub trait Vertices {
    /// The vertices of the set.
    ghost members: { Self → VertexSet };

    /// Whether a vertex is in the set.
    fn contains(&self, vertex: usize) -> bool
        requires { vertex < (members self.now).count }
        ensures { result ≡ (members self.now).has vertex };
}
