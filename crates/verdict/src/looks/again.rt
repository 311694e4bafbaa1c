//! What the last verdict of a session showed by two transactions, if they still show it.

ghost use Rattle.std.specs.Prelude.{OnOk};
ghost use Rattle.verdict.specs.Board.{IsRight};

use crate::board::Board;
use crate::pairs::{Pair, Pairs};
use cycle_find::single::between;
use dep_edges::deps::Deps;
use hist_types::types::{Level, Phenomenon};
use std::alloc::AllocError;

/// Shows the phenomenon at plain, if it may be there, and if each of the two depends on the other
/// as it needs.
fn look_between<'a>(
    deps: &Deps<'_, 'a>,
    phenomenon: Phenomenon,
    from: usize,
    to: usize,
    board: &mut Board<'a>,
) -> Result<(), AllocError>
    requires { IsRight deps.now.table.keys deps.now.txns board.old }
    ensures { OnOk result (IsRight deps.now.table.keys deps.now.txns board.new) }
{
    if !board.is_open_at(phenomenon, Level::Plain) {
        return Ok(());
    }
    match between(board.alloc(), deps, phenomenon, from, to)? {
        Some(walk) => board.show(phenomenon, Level::Plain, walk),
        None => Ok(()),
    }
}

/// Shows the phenomenon at plain, if two transactions showed it there and still do.
fn look_for<'a>(
    deps: &Deps<'_, 'a>,
    pairs: &Pairs,
    phenomenon: Phenomenon,
    board: &mut Board<'a>,
) -> Result<(), AllocError>
    requires { IsRight deps.now.table.keys deps.now.txns board.old }
    ensures { OnOk result (IsRight deps.now.table.keys deps.now.txns board.new) }
{
    let Some(Pair { one, other }) = pairs.get(phenomenon) else {
        return Ok(());
    };
    look_between(deps, phenomenon, one, other, board)?;
    look_between(deps, phenomenon, other, one, board)
}

/// Shows at plain what was shown there. G2-item comes before G-single, so that it keeps a walk of
/// its own.
pub fn look<'a>(deps: &Deps<'_, 'a>, pairs: &Pairs, board: &mut Board<'a>) -> Result<(), AllocError>
    requires { IsRight deps.now.table.keys deps.now.txns board.old }
    ensures { OnOk result (IsRight deps.now.table.keys deps.now.txns board.new) }
{
    look_for(deps, pairs, Phenomenon::G0, board)?;
    look_for(deps, pairs, Phenomenon::G1c, board)?;
    look_for(deps, pairs, Phenomenon::G2Item, board)?;
    look_for(deps, pairs, Phenomenon::GSingle, board)
}
