//! A walk, followed without what it does twice.

ghost use Rattle.std.specs.Prelude.{◌≡◌, ◌-◌, ◌<◌, ◌≤◌, [], length, OnOk, IfOk};
ghost use Rattle.hist_types.specs.Witness.{ends_in_order, stations};
ghost use Rattle.cycle_show.specs.Paths.{path_to, last_joined, followed, walked, KnowsPlaces, short_round, IsLeastAt};

use crate::kinds::needed;
use dep_edges::edge::Edge;
use std::alloc::{AllocError, Global};
use std::collections::HashMap;

/// A walk as far as it has been followed, with no transaction twice and no two order edges side by
/// side.
#[derive(Drop)]
struct Path<'a> {
    edges: Vec<Edge<'a>>,
    /// The index of the edge that leaves each transaction of the path, by its invocation.
    /// Transactions that have left the path may still be in here.
    places: HashMap<u64, usize>,
}

/// Whether the last edge is an order edge.
fn ends_in_order(edges: &[Edge<'_>]) -> bool
    ensures { result ≡ ends_in_order edges.now }
{
    match edges {
        [.., last] => last.is_order(),
        [] => false,
    }
}

impl<'a> Path<'a> {
    /// An empty path, with room for n edges.
    fn with_capacity(alloc: Global, edges: usize) -> Result<Self, AllocError>
        ensures { IfOk result (λ path. path.edges.items ≡ []) }
    {
        Ok(Path {
            edges: Vec::with_capacity(alloc, edges)?,
            places: HashMap::with_capacity(alloc, edges)?,
        })
    }

    /// Goes back to the transaction, if the path has been there.
    fn go_back(&mut self, transaction: u64)
        requires { KnowsPlaces self.old.places self.old.edges.items }
        ensures path { self.new.edges.items ≡ path_to transaction self.old.edges.items }
        ensures places { KnowsPlaces self.new.places self.new.edges.items }
    {
        let Some(place) = self.places.get(&transaction).copied() else {
            return;
        };
        if place < self.edges.len() && self.edges[place].from() == transaction {
            self.edges.truncate(place);
        }
    }

    /// Joins an order edge to the last edge.
    fn join_last(&mut self, next: &Edge<'a>)
        requires { 0 < length self.old.edges.items }
        ensures path { self.new.edges.items ≡ last_joined self.old.edges.items next.now }
        ensures places { self.new.places ≡ self.old.places }
    {
        let last = self.edges.len() - 1;
        self.edges[last] = self.edges[last].joined(next);
    }

    /// Follows the walk along one more edge.
    fn follow(&mut self, next: &Edge<'a>) -> Result<(), AllocError>
        requires { KnowsPlaces self.old.places self.old.edges.items }
        ensures path { OnOk result (self.new.edges.items ≡ followed self.old.edges.items next.now) }
        ensures places { OnOk result (KnowsPlaces self.new.places self.new.edges.items) }
    {
        self.go_back(next.from());
        if next.is_order() && ends_in_order(&self.edges) {
            self.join_last(next);
            return Ok(());
        }
        self.places.insert(next.from(), self.edges.len())?;
        self.edges.push(next.copy())?;
        Ok(())
    }

    fn follow_all(&mut self, walk: &[Edge<'a>]) -> Result<(), AllocError>
        requires { KnowsPlaces self.old.places self.old.edges.items }
        ensures path { OnOk result (self.new.edges.items ≡ walked self.old.edges.items walk.now) }
        ensures places { OnOk result (KnowsPlaces self.new.places self.new.edges.items) }
    {
        for next in walk {
            self.follow(next)?;
        }
        Ok(())
    }
}

/// The closed walk without what it does twice. It is followed from after an edge that it cannot do
/// without: what comes last is never left out.
pub fn short_round<'a>(alloc: Global, walk: &[Edge<'a>]) -> Result<Vec<Edge<'a>>, AllocError>
    ensures { IfOk result (λ edges. edges.items ≡ short_round walk.now) }
{
    let behind = needed(walk).map_or(0, |place| place + 1);
    let (front, back) = walk.split_at(behind);
    let mut path = Path::with_capacity(alloc, walk.len())?;
    path.follow_all(back)?;
    path.follow_all(front)?;
    let Path { edges, places: _ } = path;
    Ok(edges)
}

/// The index of an edge that leaves the least transaction.
pub fn least_place(edges: &[Edge<'_>]) -> usize
    ensures within { result ≤ length edges.now - 1 }
    ensures least { IsLeastAt (stations edges.now) result }
{
    let mut least = 0;
    for (place, edge) in edges.iter().enumerate() {
        if edge.from() < edges[least].from() {
            least = place;
        }
    }
    least
}
