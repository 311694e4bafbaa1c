//! A process that reads an older version than one that it wrote.

ghost use Rattle.std.specs.Prelude.{OnOk};
ghost use Rattle.verdict.specs.Board.{IsRight};

use crate::board::Board;
use cycle_find::single::single_in_process;
use dep_edges::deps::Deps;
use hist_types::types::{Level, Phenomenon};
use std::alloc::AllocError;

/// Shows G-single at process. Whether it is at plain is left open.
pub fn look<'a>(deps: &Deps<'_, 'a>, board: &mut Board<'a>) -> Result<(), AllocError>
    requires { IsRight deps.now.table.keys deps.now.txns board.old }
    ensures { OnOk result (IsRight deps.now.table.keys deps.now.txns board.new) }
{
    if !board.is_open_at(Phenomenon::GSingle, Level::Process)
        || board.is_seen(Phenomenon::GSingle)
    {
        return Ok(());
    }
    match single_in_process(board.alloc(), deps)? {
        Some(walk) => board.show(Phenomenon::GSingle, Level::Process, walk),
        None => Ok(()),
    }
}
