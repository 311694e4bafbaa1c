//! Closed walks.

ghost use Rattle.std.specs.Prelude.{◌≡◌, ◌∷◌, IfOk};
ghost use Rattle.hist_types.specs.Witness.{dependencies_in};

use dep_edges::edge::{Edge, dependencies_in};
use std::alloc::{AllocError, Global};
use std::marker::Model;

/// A closed walk: its edges in order.
#[derive(Drop)]
pub struct Walk<'a> {
    edges: Vec<Edge<'a>>,
}

impl<'a> Model for Walk<'a> {
    ghost use Rattle.std.specs.Prelude.{List};
    ghost use Rattle.hist_types.specs.Edges.{Edge as AnEdge};

    ghost Value = { List AnEdge };

    ghost view = { λ walk. walk.edges.items };
}

impl<'a> Walk<'a> {
    pub fn new(edges: Vec<Edge<'a>>) -> Self
        ensures { result ≡ edges.entry.items }
    {
        Walk { edges }
    }

    /// An edge, and then a way back from its second end to its first.
    pub(crate) fn closing(edge: Edge<'a>, mut way_back: Vec<Edge<'a>>) -> Result<Self, AllocError>
        ensures { IfOk result (λ walk. walk ≡ edge.entry ∷ way_back.entry.items) }
    {
        way_back.insert(0, edge)?;
        Ok(Walk::new(way_back))
    }

    /// How many of its edges are no order edges.
    pub fn dependency_edges(&self) -> usize
        ensures { result ≡ dependencies_in self.now }
    {
        dependencies_in(&self.edges)
    }

    pub fn edges(&self) -> &[Edge<'a>]
        ensures { result.now ≡ self.now }
    {
        &self.edges
    }
}
