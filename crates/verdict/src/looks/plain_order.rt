//! One order of the transactions, along which every dependency edge goes forward: then no cycle
//! shows anything at plain.

ghost use Rattle.std.specs.Prelude.{OnOk};
ghost use Rattle.verdict.specs.Board.{IsRight};

use crate::board::Board;
use clean_order::attempt::Attempt;
use clean_order::settles_plain;
use dep_edges::deps::Deps;
use hist_types::types::{Level, Phenomenon};
use std::alloc::AllocError;

/// Rules out all four phenomena at plain, where G-single is seen at a higher level and nothing at
/// plain.
pub fn look<'a>(
    deps: &Deps<'_, 'a>,
    attempt: &Attempt,
    board: &mut Board<'a>,
) -> Result<(), AllocError>
    requires { IsRight deps.now.table.keys deps.now.txns board.old }
    ensures { OnOk result (IsRight deps.now.table.keys deps.now.txns board.new) }
{
    if !board.is_seen(Phenomenon::GSingle)
        || board.is_settled(Phenomenon::GSingle)
        || board.is_seen(Phenomenon::G2Item)
        || !settles_plain(deps, attempt)
    {
        return Ok(());
    }
    board.rule_out(Phenomenon::G0, Level::Plain)?;
    board.rule_out(Phenomenon::G1c, Level::Plain)?;
    board.rule_out(Phenomenon::G2Item, Level::Plain)
}
