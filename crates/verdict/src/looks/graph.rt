//! The graph of the history, over its thinned order: whatever is left open is searched for.

ghost use Rattle.std.specs.Prelude.{◌≡◌, ◌+◌, OnOk};
ghost use Rattle.dep_edges.specs.Histories.{AreOfHistory};
ghost use Rattle.hist_types.specs.Phenomena.{height};
ghost use Rattle.order_frontier.specs.Predecessors.{IsThinnedOrder};
ghost use Rattle.verdict.specs.Board.{AreSettled, AreStillSettled, IsRight, IsSettled, IsSettledBelow, known};
ghost use Rattle.verdict.specs.Graphs.{IsThinned};
ghost use Rattle.verdict.specs.Tables.{AreTables, history_of};

use crate::board::Board;
use crate::looks::two_txns;
use crate::tables::Tables;
use cycle_find::ranked_graph::RankedGraph;
use dep_edges::deps::Deps;
use edge_graph::graph::Graph;
use hist_types::types::{Level, Phenomenon};
use order_frontier::thinning::thinned;
use order_frontier::types::Order;
use std::alloc::AllocError;

/// Searches for the phenomenon at a level, if it may be there. Below the level it isn't, or it is
/// settled.
fn settle_at<'a>(
    graph: &RankedGraph<'_, '_, '_, 'a>,
    phenomenon: Phenomenon,
    level: Level,
    board: &mut Board<'a>,
) -> Result<(), AllocError>
    requires thinned { IsThinned graph.now }
    requires right { IsRight graph.now.keys graph.now.txns board.old }
    requires below { IsSettledBelow (height level) (known board.old phenomenon) }
    ensures right { OnOk result (IsRight graph.now.keys graph.now.txns board.new) }
    ensures settles { OnOk result
        (IsSettledBelow (height level + 1) (known board.new phenomenon)) }
    ensures still { OnOk result (AreStillSettled board.old board.new) }
{
    if !board.is_open_at(phenomenon, level) {
        return Ok(());
    }
    let least = board.needs_at(phenomenon, level);
    match graph.at(level).find(phenomenon, least)? {
        Some(walk) => board.show(phenomenon, level, walk),
        None => board.rule_out(phenomenon, level),
    }
}

/// Settles the phenomenon.
fn settle<'a>(
    graph: &RankedGraph<'_, '_, '_, 'a>,
    phenomenon: Phenomenon,
    board: &mut Board<'a>,
) -> Result<(), AllocError>
    requires thinned { IsThinned graph.now }
    requires right { IsRight graph.now.keys graph.now.txns board.old }
    ensures right { OnOk result (IsRight graph.now.keys graph.now.txns board.new) }
    ensures settles { OnOk result (IsSettled (known board.new phenomenon)) }
    ensures still { OnOk result (AreStillSettled board.old board.new) }
{
    if graph.rules_out(phenomenon) {
        return board.rule_out(phenomenon, Level::Realtime);
    }
    settle_at(graph, phenomenon, Level::Plain, board)?;
    settle_at(graph, phenomenon, Level::Process, board)?;
    settle_at(graph, phenomenon, Level::Realtime, board)
}

/// Settles each phenomenon. G2-item comes before G-single, which isn't searched for where there is
/// no G2-item.
fn settle_each<'a>(
    graph: &RankedGraph<'_, '_, '_, 'a>,
    board: &mut Board<'a>,
) -> Result<(), AllocError>
    requires thinned { IsThinned graph.now }
    requires right { IsRight graph.now.keys graph.now.txns board.old }
    ensures right { OnOk result (IsRight graph.now.keys graph.now.txns board.new) }
    ensures settled { OnOk result (AreSettled board.new) }
{
    settle(graph, Phenomenon::G0, board)?;
    settle(graph, Phenomenon::G1c, board)?;
    settle(graph, Phenomenon::G2Item, board)?;
    settle(graph, Phenomenon::GSingle, board)?;
    Ok(())
}

/// Makes the graph, and settles what it shows.
fn look_over<'a>(
    deps: &Deps<'_, 'a>,
    order: &Order,
    board: &mut Board<'a>,
) -> Result<(), AllocError>
    requires history { AreOfHistory deps.now.txns }
    requires order { IsThinnedOrder deps.now.txns order.now }
    requires right { IsRight deps.now.table.keys deps.now.txns board.old }
    ensures right { OnOk result (IsRight deps.now.table.keys deps.now.txns board.new) }
    ensures settled { OnOk result (AreSettled board.new) }
{
    let graph = Graph::new(board.alloc(), deps, order)?;
    let ranked = RankedGraph::new(board.alloc(), &graph)?;
    settle_each(&ranked, board)
}

/// Settles what is open. It thins the order, unless it was kept or made already, and lays out a
/// graph: that takes as long as all looks before it.
pub fn look<'a>(
    tables: &Tables<'_, 'a>,
    deps: &Deps<'_, 'a>,
    board: &mut Board<'a>,
) -> Result<(), AllocError>
    requires tables { AreTables tables.now }
    requires deps { deps.now ≡ history_of tables.now }
    requires right { IsRight deps.now.table.keys deps.now.txns board.old }
    ensures right { OnOk result (IsRight deps.now.table.keys deps.now.txns board.new) }
    ensures settled { OnOk result (AreSettled board.new) }
{
    if board.are_settled() {
        return Ok(());
    }
    two_txns::look_at_all(deps, board)?;
    if board.are_settled() {
        return Ok(());
    }
    match tables.thinned {
        Some(order) => look_over(deps, order, board),
        None => {
            let order = thinned(board.alloc(), tables.txns.as_slice())?;
            look_over(deps, &order, board)
        }
    }
}
