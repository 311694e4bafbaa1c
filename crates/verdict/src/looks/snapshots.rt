//! An order of starts and commits, as snapshot isolation has it: then no cycle shows more than
//! G2-item.

ghost use Rattle.std.specs.Prelude.{OnOk};
ghost use Rattle.verdict.specs.Board.{IsRight};

use crate::board::Board;
use clean_order::attempt::Attempt;
use clean_order::settles_snapshots;
use dep_edges::deps::Deps;
use hist_types::types::{Level, Phenomenon};
use schedules::types::EdgeKinds;
use std::alloc::AllocError;

/// Rules out G0, G1c and G-single, at each level, where G2-item is seen and may be all that there
/// is.
pub fn look<'a>(
    deps: &Deps<'_, 'a>,
    attempt: &Attempt,
    board: &mut Board<'a>,
) -> Result<(), AllocError>
    requires { IsRight deps.now.table.keys deps.now.txns board.old }
    ensures { OnOk result (IsRight deps.now.table.keys deps.now.txns board.new) }
{
    if !board.is_skew_seen()
        || board.is_seen(Phenomenon::GSingle)
        || board.is_settled(Phenomenon::GSingle)
        || !settles_snapshots(board.alloc(), deps, attempt, EdgeKinds::ALL)?
    {
        return Ok(());
    }
    board.rule_out(Phenomenon::G0, Level::Realtime)?;
    board.rule_out(Phenomenon::G1c, Level::Realtime)?;
    board.rule_out(Phenomenon::GSingle, Level::Realtime)
}
