//! One order of the transactions, along which every edge goes forward: then no cycle shows
//! anything.

ghost use Rattle.std.specs.Prelude.{OnOk};
ghost use Rattle.verdict.specs.Board.{IsRight};

use crate::board::Board;
use clean_order::attempt::Attempt;
use clean_order::settles;
use dep_edges::deps::Deps;
use hist_types::types::{Level, Phenomenon};
use std::alloc::AllocError;

/// Rules out all four phenomena, at each level, where G-single isn't seen. What could be ordered is
/// kept for later looks.
pub fn look<'a>(
    deps: &Deps<'_, 'a>,
    attempt: &mut Attempt,
    board: &mut Board<'a>,
) -> Result<(), AllocError>
    requires { IsRight deps.now.table.keys deps.now.txns board.old }
    ensures { OnOk result (IsRight deps.now.table.keys deps.now.txns board.new) }
{
    if board.are_settled()
        || board.is_seen(Phenomenon::GSingle)
        || !settles(board.alloc(), deps, attempt)?
    {
        return Ok(());
    }
    board.rule_out(Phenomenon::G0, Level::Realtime)?;
    board.rule_out(Phenomenon::G1c, Level::Realtime)?;
    board.rule_out(Phenomenon::G2Item, Level::Realtime)
}
