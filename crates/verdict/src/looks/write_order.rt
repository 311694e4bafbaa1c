//! One order of the transactions, along which every edge but the rw edges goes forward: then no
//! cycle shows G0 or G1c.

ghost use Rattle.std.specs.Prelude.{OnOk};
ghost use Rattle.verdict.specs.Board.{IsRight};

use crate::board::Board;
use clean_order::attempt::Attempt;
use clean_order::settles_kinds;
use dep_edges::deps::Deps;
use hist_types::types::{Level, Phenomenon};
use schedules::types::EdgeKinds;
use std::alloc::AllocError;

/// Rules out G0 and G1c, at each level, where no more than these is left to settle.
pub fn look<'a>(
    deps: &Deps<'_, 'a>,
    attempt: &Attempt,
    board: &mut Board<'a>,
) -> Result<(), AllocError>
    requires { IsRight deps.now.table.keys deps.now.txns board.old }
    ensures { OnOk result (IsRight deps.now.table.keys deps.now.txns board.new) }
{
    if !board.is_settled(Phenomenon::GSingle)
        || !board.is_settled(Phenomenon::G2Item)
        || board.is_settled(Phenomenon::G1c)
        || !settles_kinds(board.alloc(), deps, attempt, EdgeKinds::WITHOUT_RW)?
    {
        return Ok(());
    }
    board.rule_out(Phenomenon::G0, Level::Realtime)?;
    board.rule_out(Phenomenon::G1c, Level::Realtime)
}
