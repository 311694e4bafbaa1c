//! Witnesses.

ghost use Rattle.std.specs.Prelude.{◌≡◌, ◌≤◌, IfOk};
ghost use Rattle.hist_types.specs.Witness.{dependencies_in};
ghost use Rattle.cycle_show.specs.Reductions.{IsWitnessOf};

use crate::path::{least_place, short_round};
use cycle_find::types::Walk;
use dep_edges::edge::Edge;
use std::alloc::{AllocError, Global};
use std::marker::Model;

/// A closed walk with no transaction twice and no two order edges side by side, written from its
/// least transaction on.
#[derive(Drop)]
pub struct Witness<'a> {
    walk: Walk<'a>,
}

impl<'a> Model for Witness<'a> {
    ghost use Rattle.std.specs.Prelude.{List};
    ghost use Rattle.hist_types.specs.Edges.{Edge as AnEdge};

    ghost Value = { List AnEdge };

    ghost view = { λ witness. witness.walk };
}

impl<'a> Witness<'a> {
    /// Reduces a closed walk as `tighten` does. The only error is out of memory.
    pub fn of(alloc: Global, walk: &Walk<'a>) -> Result<Self, AllocError>
        ensures witness { IfOk result (IsWitnessOf walk.now) }
        ensures dependencies { IfOk result
            (λ told. dependencies_in told ≤ dependencies_in walk.now) }
    {
        let mut edges = short_round(alloc, walk.edges())?;
        edges.rotate_left(least_place(&edges));
        Ok(Witness {
            walk: Walk::new(edges),
        })
    }

    /// The witness's edges, from its least transaction on.
    pub fn edges(&self) -> &[Edge<'a>]
        ensures { result.now ≡ self.now }
    {
        self.walk.edges()
    }

    /// How many of the edges are dependency edges. The witness that is reported of a phenomenon has
    /// the fewest that are possible.
    pub fn dependency_edges(&self) -> usize
        ensures { result ≡ dependencies_in self.now }
    {
        self.walk.dependency_edges()
    }
}
