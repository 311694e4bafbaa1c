//! An order of starts and commits along the dependency edges alone: then no cycle shows G-single at
//! plain.

ghost use Rattle.std.specs.Prelude.{OnOk};
ghost use Rattle.verdict.specs.Board.{IsRight};

use crate::board::Board;
use clean_order::attempt::Attempt;
use clean_order::settles_snapshots;
use dep_edges::deps::Deps;
use hist_types::types::{Level, Phenomenon};
use schedules::types::EdgeKinds;
use std::alloc::AllocError;

/// Rules out G-single at plain, where it is seen at a higher level and G2-item at plain.
pub fn look<'a>(
    deps: &Deps<'_, 'a>,
    attempt: &Attempt,
    board: &mut Board<'a>,
) -> Result<(), AllocError>
    requires { IsRight deps.now.table.keys deps.now.txns board.old }
    ensures { OnOk result (IsRight deps.now.table.keys deps.now.txns board.new) }
{
    if !board.is_seen(Phenomenon::GSingle)
        || board.is_settled(Phenomenon::GSingle)
        || !board.is_settled(Phenomenon::G2Item)
        || !settles_snapshots(board.alloc(), deps, attempt, EdgeKinds::PLAIN)?
    {
        return Ok(());
    }
    board.rule_out(Phenomenon::GSingle, Level::Plain)
}
