//! One order of the transactions, along which every ww and order edge goes forward: then no cycle
//! shows G0.

ghost use Rattle.std.specs.Prelude.{OnOk};
ghost use Rattle.verdict.specs.Board.{IsRight};

use crate::board::Board;
use clean_order::attempt::Attempt;
use clean_order::settles_kinds;
use dep_edges::deps::Deps;
use hist_types::types::{Level, Phenomenon};
use schedules::types::EdgeKinds;
use std::alloc::AllocError;

/// Rules out G0, at each level, where no more than this is left to settle.
pub fn look<'a>(
    deps: &Deps<'_, 'a>,
    attempt: &Attempt,
    board: &mut Board<'a>,
) -> Result<(), AllocError>
    requires { IsRight deps.now.table.keys deps.now.txns board.old }
    ensures { OnOk result (IsRight deps.now.table.keys deps.now.txns board.new) }
{
    if !board.is_settled(Phenomenon::GSingle)
        || !board.is_settled(Phenomenon::G2Item)
        || !board.is_settled(Phenomenon::G1c)
        || board.is_settled(Phenomenon::G0)
        || !settles_kinds(board.alloc(), deps, attempt, EdgeKinds::WITHOUT_READS)?
    {
        return Ok(());
    }
    board.rule_out(Phenomenon::G0, Level::Realtime)
}
