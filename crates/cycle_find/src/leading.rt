//! Arcs turned round: what leads to each vertex, and the last that does.

ghost use Rattle.std.specs.Prelude.{◌≡◌, ◌<◌, length, All, OnOk, IfOk};
ghost use Rattle.flat_groups.specs.Groups.{IsNumbered};
ghost use Rattle.cycle_find.specs.Fewest.{AreLast, AreLeading, AreRaised, HasArcsFrom, HaveAtLeast, IsTurnedArc};
ghost use Rattle.cycle_find.specs.Tasks.{Includes};

use crate::sharing::number;
use edge_graph::arcs::GraphArcs;
use flat_groups::groups::Groups;
use graph_search::arcs::Arcs;
use std::alloc::{AllocError, Global};

/// Adds, for each arc that leaves the vertex, what it leads to and the vertex.
fn add_arcs(
    arcs: &GraphArcs<'_>,
    from: usize,
    pairs: &mut Vec<(u32, u32)>,
) -> Result<(), AllocError>
    requires from { from < length arcs.now }
    requires numbered { All (IsNumbered (length arcs.now)) pairs.old.items }
    requires arcs { All (IsTurnedArc arcs.now) pairs.old.items }
    ensures numbered { OnOk result (All (IsNumbered (length arcs.now)) pairs.new.items) }
    ensures arcs { OnOk result (All (IsTurnedArc arcs.now) pairs.new.items) }
    ensures kept { OnOk result (Includes pairs.old.items pairs.new.items) }
    ensures added { OnOk result (HasArcsFrom arcs.now from pairs.new.items) }
{
    let successors = arcs.successors(from);
    for index in 0..successors.len() {
        pairs.push((number(successors.at(index))?, number(from)?))?;
    }
    Ok(())
}

/// For each vertex, what leads to it.
pub(crate) fn leading(alloc: Global, arcs: &GraphArcs<'_>) -> Result<Groups<u32>, AllocError>
    ensures { IfOk result (AreLeading arcs.now) }
{
    let mut pairs = Vec::new(alloc);
    for from in 0..arcs.vertices() {
        add_arcs(arcs, from, &mut pairs)?;
    }
    Groups::of(alloc, arcs.vertices(), &pairs)
}

/// Raises the number of each vertex that one leads to, if it is lower.
fn raise(arcs: &GraphArcs<'_>, from: usize, number: usize, last: &mut [usize])
    requires from { from < length arcs.now }
    requires last { length last.old ≡ length arcs.now }
    ensures length { length last.new ≡ length last.old }
    ensures kept { AreRaised last.old last.new }
    ensures raised { HaveAtLeast arcs.now from number last.new }
{
    let successors = arcs.successors(from);
    for index in 0..successors.len() {
        let to = successors.at(index);
        if last[to] < number {
            last[to] = number;
        }
    }
}

/// For each vertex, the greatest of the first places from which an arc leads to it, or a way by a
/// vertex behind them.
pub(crate) fn last_leading(
    alloc: Global,
    arcs: &GraphArcs<'_>,
    places: usize,
) -> Result<Vec<usize>, AllocError>
    ensures { IfOk result (λ last. AreLast places arcs.now last.items) }
{
    let mut last = vec![in alloc; 0; arcs.vertices()]?;
    for from in 0..arcs.vertices() {
        let number = if from < places { from } else { last[from] };
        raise(arcs, from, number, &mut last);
    }
    Ok(last)
}
