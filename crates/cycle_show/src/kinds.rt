//! The edge that a walk cannot do without, by its kind.

ghost use Rattle.std.specs.Prelude.{◌≡◌, ◌<◌, length, IfSome};
ghost use Rattle.std.specs.List.{position_from};
ghost use Rattle.hist_types.specs.Phenomena.{is_ww, is_wr, is_rw};
ghost use Rattle.cycle_show.specs.Paths.{needed_place};

use dep_edges::edge::Edge;

/// The index of the first rw edge.
fn place_of_rw(edges: &[Edge<'_>]) -> Option<usize>
    ensures place { result ≡ position_from is_rw 0 edges.now }
    ensures within { IfSome result (λ place. place < length edges.now) }
{
    edges.iter().position(|edge| edge.is_rw())
}

/// The index of the first wr edge.
fn place_of_wr(edges: &[Edge<'_>]) -> Option<usize>
    ensures place { result ≡ position_from is_wr 0 edges.now }
    ensures within { IfSome result (λ place. place < length edges.now) }
{
    edges.iter().position(|edge| edge.is_wr())
}

/// The index of the first ww edge.
fn place_of_ww(edges: &[Edge<'_>]) -> Option<usize>
    ensures place { result ≡ position_from is_ww 0 edges.now }
    ensures within { IfSome result (λ place. place < length edges.now) }
{
    edges.iter().position(|edge| edge.is_ww())
}

/// The index of an edge that the walk cannot do without, whichever phenomenon it shows: an rw if it
/// has one, else a wr, else a ww.
pub fn needed(edges: &[Edge<'_>]) -> Option<usize>
    ensures place { result ≡ needed_place edges.now }
    ensures within { IfSome result (λ place. place < length edges.now) }
{
    if let Some(place) = place_of_rw(edges) {
        return Some(place);
    }
    if let Some(place) = place_of_wr(edges) {
        return Some(place);
    }
    place_of_ww(edges)
}
