//! Closed walks of two edges, found without a graph.
//!
//! A history of a database that promises less than serializability mostly has many of them, and
//! then no graph need be built. Where none is found, there may be one all the same.

ghost use Rattle.std.specs.Prelude.{IfOk, IfSome};
ghost use Rattle.hist_types.specs.Edges.{edges_at};
ghost use Rattle.hist_types.specs.declared.types.Level.TheVariants.{Plain, Process};
ghost use Rattle.hist_types.specs.declared.types.Phenomenon.TheVariants.{G1c, GSingle, G2Item};
ghost use Rattle.cycle_find.specs.Dependencies as walks;
ghost use Rattle.cycle_find.specs.Found.{ShowsByFewest};
ghost use Rattle.edge_graph.specs.Kinds.{AreAmong};
ghost use Rattle.cycle_find.specs.Single.{AreMutual, AreTwoOr, IsDependencyIfAny, IsProcessEdgeBetween};

use crate::completions::is_before;
use crate::kinds::{needed, way_back};
use crate::one_dependency::Ends;
use crate::single_ends::in_process;
use crate::types::Walk;
use dep_edges::deps::Deps;
use dep_edges::edge::{Edge, Label};
use edge_graph::types::{Dependencies, Kinds};
use hist_types::types::{Level, Phenomenon};
use std::alloc::{AllocError, Global};

/// A dependency edge of the kinds from one transaction to another, if there is one. It looks
/// through all that leave the first.
fn dependency<'a>(
    alloc: Global,
    deps: &Deps<'_, 'a>,
    from: usize,
    to: usize,
    kinds: Kinds,
) -> Result<Option<Edge<'a>>, AllocError>
    ensures { IfOk result (IsDependencyIfAny deps.now kinds from to) }
{
    let history = deps.history();
    let count = history.txns().len();
    if from >= count || to >= count {
        return Ok(None);
    }
    let invocation = history.txn(to).invocation();
    let mut leaving = Vec::new(alloc);
    deps.edges_from(from, &mut leaving)?;
    for edge in &leaving {
        if edge.to() == invocation && kinds.includes(edge.label()) {
            return Ok(Some(edge.copy()));
        }
    }
    Ok(None)
}

/// The process edge from one transaction to another, if there is one.
fn process_edge<'a>(deps: &Deps<'_, 'a>, from: usize, to: usize) -> Option<Edge<'a>>
    ensures { IfSome result (IsProcessEdgeBetween deps.now.txns from to) }
{
    let history = deps.history();
    let count = history.txns().len();
    if from >= count || to >= count {
        return None;
    }
    let first = history.txn(from);
    let second = history.txn(to);
    if is_before(Level::Process, first, second) && deps.is_node(to) {
        let label = Label::Process {
            process: first.process(),
        };
        return Some(Edge::new(first.invocation(), second.invocation(), label));
    }
    None
}

/// The closed walk along an edge that the phenomenon needs, from one transaction to another, and an
/// edge of these dependencies back, if both are there.
pub(crate) fn there_and_back<'a>(
    alloc: Global,
    deps: &Deps<'_, 'a>,
    phenomenon: Phenomenon,
    ends: Ends,
    back: Dependencies,
) -> Result<Option<Walk<'a>>, AllocError>
    requires { AreAmong back (walks.way_back phenomenon) }
    ensures { IfOk result (AreTwoOr phenomenon deps.now
        (¬ AreMutual deps.now (walks.needed phenomenon) back ends.from ends.to)) }
{
    let out = Kinds::of(needed(phenomenon), Level::Plain);
    let Some(edge) = dependency(alloc, deps, ends.from, ends.to, out)? else {
        return Ok(None);
    };
    let kinds = Kinds::of(back, Level::Plain);
    let Some(edge_back) = dependency(alloc, deps, ends.to, ends.from, kinds)? else {
        return Ok(None);
    };
    let rest = vec![in alloc; edge_back]?;
    Ok(Some(Walk::closing(edge, rest)?))
}

/// The closed walk along two edges between two transactions, by their places, that shows the
/// phenomenon, if there is one. The edge that the phenomenon needs leads from the first of them.
pub fn between<'a>(
    alloc: Global,
    deps: &Deps<'_, 'a>,
    phenomenon: Phenomenon,
    from: usize,
    to: usize,
) -> Result<Option<Walk<'a>>, AllocError>
    ensures { IfOk result (λ found. IfSome found
        (ShowsByFewest phenomenon (edges_at deps.now.table.keys Plain deps.now.txns))) }
{
    let ends = Ends { from, to };
    there_and_back(alloc, deps, phenomenon, ends, way_back(phenomenon))
}

/// A closed walk along an rw edge and a process edge back, if one look at each version finds one: a
/// process reads an older version than one that it wrote.
///
/// `verdict` asks for it before it builds a graph. It takes linear time, and two numbers for each
/// process.
pub fn single_in_process<'a>(
    alloc: Global,
    deps: &Deps<'_, 'a>,
) -> Result<Option<Walk<'a>>, AllocError>
    ensures { IfOk result (λ found.
        IfSome found (ShowsByFewest GSingle (edges_at deps.now.table.keys Process deps.now.txns))) }
{
    let Some(ends) = in_process(alloc, deps)? else {
        return Ok(None);
    };
    let rw = Kinds::of(Dependencies::Rw, Level::Plain);
    let Some(edge) = dependency(alloc, deps, ends.from, ends.to, rw)? else {
        return Ok(None);
    };
    let Some(back) = process_edge(deps, ends.to, ends.from) else {
        return Ok(None);
    };
    let rest = vec![in alloc; back]?;
    Ok(Some(Walk::closing(edge, rest)?))
}
