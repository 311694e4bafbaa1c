//! Two transactions, each of which depends on the other one.

ghost use Rattle.std.specs.Prelude.{OnOk};
ghost use Rattle.verdict.specs.Board.{IsRight};

use crate::board::Board;
use cycle_find::two_dependencies::{Mutual, find_mutual, linear_steps};
use dep_edges::deps::Deps;
use hist_types::types::{Level, Phenomenon};
use std::alloc::AllocError;

/// Shows the phenomenon at plain, where it may be there by two transactions, if they are found
/// within the steps; or notes that there it takes more.
fn look_within<'a>(
    deps: &Deps<'_, 'a>,
    phenomenon: Phenomenon,
    steps: usize,
    board: &mut Board<'a>,
) -> Result<(), AllocError>
    requires { IsRight deps.now.table.keys deps.now.txns board.old }
    ensures { OnOk result (IsRight deps.now.table.keys deps.now.txns board.new) }
{
    if !board.is_open_at(phenomenon, Level::Plain) || board.needs_at(phenomenon, Level::Plain) > 2 {
        return Ok(());
    }
    match find_mutual(board.alloc(), deps, phenomenon, steps)? {
        Mutual::Found(walk) => board.show(phenomenon, Level::Plain, walk),
        Mutual::Nowhere => {
            board.rule_out_two(phenomenon);
            Ok(())
        }
        Mutual::Unknown => Ok(()),
    }
}

/// The same within so many steps that it is linear in the history.
pub fn look<'a>(
    deps: &Deps<'_, 'a>,
    phenomenon: Phenomenon,
    board: &mut Board<'a>,
) -> Result<(), AllocError>
    requires { IsRight deps.now.table.keys deps.now.txns board.old }
    ensures { OnOk result (IsRight deps.now.table.keys deps.now.txns board.new) }
{
    look_within(deps, phenomenon, linear_steps(deps), board)
}

/// The same for each phenomenon, in any number of steps.
pub fn look_at_all<'a>(deps: &Deps<'_, 'a>, board: &mut Board<'a>) -> Result<(), AllocError>
    requires { IsRight deps.now.table.keys deps.now.txns board.old }
    ensures { OnOk result (IsRight deps.now.table.keys deps.now.txns board.new) }
{
    look_within(deps, Phenomenon::G0, usize::MAX, board)?;
    look_within(deps, Phenomenon::G1c, usize::MAX, board)?;
    look_within(deps, Phenomenon::G2Item, usize::MAX, board)?;
    look_within(deps, Phenomenon::GSingle, usize::MAX, board)
}
