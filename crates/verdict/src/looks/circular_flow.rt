//! Two transactions, each of which read or wrote over what the other one wrote.

ghost use Rattle.std.specs.Prelude.{OnOk};
ghost use Rattle.verdict.specs.Board.{IsRight};

use crate::board::Board;
use crate::looks::two_txns;
use dep_edges::deps::Deps;
use hist_types::types::Phenomenon;
use std::alloc::AllocError;

/// Shows G1c at plain, where no more than this and G0 is left to settle.
pub fn look<'a>(deps: &Deps<'_, 'a>, board: &mut Board<'a>) -> Result<(), AllocError>
    requires { IsRight deps.now.table.keys deps.now.txns board.old }
    ensures { OnOk result (IsRight deps.now.table.keys deps.now.txns board.new) }
{
    if !board.is_settled(Phenomenon::GSingle) || !board.is_settled(Phenomenon::G2Item) {
        return Ok(());
    }
    two_txns::look(deps, Phenomenon::G1c, board)
}
