//! The looks at a history, in their order. Each adds to what is known; only the last has to settle
//! all that is left. So any other may be left out, or come at another place.

ghost use Rattle.std.specs.Prelude.{◌≡◌, IfOk, OnOk};
ghost use Rattle.hist_types.specs.Reports.{AreFindings};
ghost use Rattle.verdict.specs.Board.{AreSettled, IsRight};
ghost use Rattle.verdict.specs.Tables.{AreTables, history_of};

mod again;
mod circular_flow;
mod dirty_writes;
mod graph;
mod order;
mod plain_order;
mod plain_snapshots;
mod snapshots;
mod stale_read;
mod two_txns;
mod write_order;

use crate::board::Board;
use crate::tables::Tables;
use clean_order::attempt::Attempt;
use dep_edges::deps::Deps;
use hist_types::types::Phenomenon;
use report_text::report::Findings;
use std::alloc::{AllocError, Global};

/// Settles each phenomenon that cycles show. By each look stands what it can settle, for which
/// histories it is there, and what it costs.
fn look_at_all<'a>(
    tables: &Tables<'_, 'a>,
    deps: &Deps<'_, 'a>,
    attempt: &mut Attempt,
    board: &mut Board<'a>,
) -> Result<(), AllocError>
    requires tables { AreTables tables.now }
    requires deps { deps.now ≡ history_of tables.now }
    requires right { IsRight deps.now.table.keys deps.now.txns board.old }
    ensures right { OnOk result (IsRight deps.now.table.keys deps.now.txns board.new) }
    ensures settled { OnOk result (AreSettled board.new) }
{
    // Each at plain: what the last verdict of a session showed by two transactions. A few edges.
    again::look(deps, &tables.pairs, board)?;
    // All four, nowhere: where all transactions can be put in one order. Linear.
    order::look(deps, attempt, board)?;
    // G2-item at plain: a lost update, else write skew. Linear, at most 32 steps for each
    // transaction and version.
    two_txns::look(deps, Phenomenon::G2Item, board)?;
    // The others, nowhere: snapshot isolation, which has write skew alone. Linear, two numbers
    // each.
    snapshots::look(deps, attempt, board)?;
    // G-single and G2-item at plain: read committed and less. As for G2-item.
    two_txns::look(deps, Phenomenon::GSingle, board)?;
    // G-single at process: stale reads. Linear, and a number for each process.
    stale_read::look(deps, board)?;
    // All four, not at plain: where G-single was seen at process alone. One look at each version.
    plain_order::look(deps, attempt, board)?;
    // G-single, not at plain: the same, with write skew at plain. Linear, two numbers each.
    plain_snapshots::look(deps, attempt, board)?;
    // G0 and G1c, nowhere: where G-single and G2-item are settled. Linear.
    write_order::look(deps, attempt, board)?;
    // G1c at plain: read uncommitted. As for G2-item.
    circular_flow::look(deps, board)?;
    // G0, nowhere: read uncommitted without dirty writes. Linear.
    dirty_writes::look(deps, attempt, board)?;
    // All that is left: any history. As long as everything before, and longer for some.
    graph::look(tables, deps, board)
}

/// What is found of the phenomena that cycles show.
pub fn findings_of<'a>(
    alloc: Global,
    tables: &Tables<'_, 'a>,
    deps: &Deps<'_, 'a>,
) -> Result<Findings<'a>, AllocError>
    requires tables { AreTables tables.now }
    requires deps { deps.now ≡ history_of tables.now }
    ensures { IfOk result (AreFindings deps.now.table.keys deps.now.txns) }
{
    let mut board = Board::new(alloc);
    let mut attempt = Attempt::new(alloc, deps)?;
    look_at_all(tables, deps, &mut attempt, &mut board)?;
    board.into_findings()
}
