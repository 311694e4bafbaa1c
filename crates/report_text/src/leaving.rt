//! The dependency edges of a history, transaction by transaction.

ghost use Rattle.std.specs.Prelude.{◌≡◌, length, IfOk, OnOk};
ghost use Rattle.dep_edges.specs.Histories.{AreOfHistory};
ghost use Rattle.dep_edges.specs.Tables.{IsPlace, txn_at};
ghost use Rattle.report_text.specs.Leaving.{edges_leaving, IsContinuedByAll};

use crate::lines::append_edges;
use dep_edges::deps::Deps;
use dep_edges::edge::{Edge, sort_edges};
use std::alloc::{AllocError, Global};

/// Replaces the list by the edges that leave the transaction at an index, in order.
fn find_leaving<'a>(
    deps: &Deps<'_, 'a>,
    place: usize,
    leaving: &mut Vec<Edge<'a>>,
) -> Result<(), AllocError>
    requires history { AreOfHistory deps.now.txns }
    requires place { IsPlace deps.now.txns place }
    ensures { OnOk result (leaving.new.items
        ≡ edges_leaving deps.now.table.keys deps.now.txns (txn_at deps.now.txns place)) }
{
    leaving.clear();
    deps.edges_from(place, leaving)?;
    sort_edges(leaving);
    Ok(())
}

/// Appends the lines of all edges, transaction by transaction, and returns how many there are.
pub fn append_all_edges(
    alloc: Global,
    deps: &Deps<'_, '_>,
    txns: usize,
    out: &mut Vec<u8>,
) -> Result<u64, AllocError>
    requires history { AreOfHistory deps.now.txns }
    requires txns { txns ≡ length deps.now.txns }
    ensures { IfOk result (IsContinuedByAll deps.now.table.keys deps.now.txns
        out.old.items out.new.items) }
{
    let mut leaving = Vec::new(alloc);
    let mut count = 0;
    for place in 0..txns {
        find_leaving(deps, place, &mut leaving)?;
        append_edges(out, &leaving)?;
        count += leaving.len() as u64;
    }
    Ok(count)
}
