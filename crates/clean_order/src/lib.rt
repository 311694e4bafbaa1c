//! Schedules of a finished history's transactions, which show without a graph that no cycle is
//! there.
//!
//! A schedule is proposed, and a certificate shows whether it keeps the history's edges. Either it
//! is given as two lists, over the table of versions, or the transactions are put in one order,
//! which is looked at as it is made, over numbers of versions alone.
#![tactic(auto)]

ghost use Rattle.std.specs.Prelude.{IfOk, true, false};
ghost use Rattle.std.specs.Bool.{OnTrue};
ghost use Rattle.schedules.specs.Cycles.{HasNoneRuledOut};
ghost use Rattle.schedules.specs.declared.types.TheConstants.EdgeKinds.{ALL, PLAIN};

pub mod attempt;
mod earlier;
mod ends;
pub mod in_time;
mod keeping;
pub mod laws;
mod propose_schedules;
mod propose_turns;
mod propose_waiting;
pub mod replay;
mod replaying;
pub mod updates;

use crate::attempt::Attempt;
use crate::keeping::keeps;
use crate::propose_schedules::{Snapshots, ranks};
use dep_edges::deps::Deps;
use schedules::types::EdgeKinds;
use std::alloc::{AllocError, Global};

/// True only if no cycle shows any phenomenon at any level. False says nothing: the history may
/// have one, or not.
///
/// Transactions get ranks, one after the other in the order of their completions, each after what
/// it depends on and after what completed before its invocation. If that can be done, a serial
/// schedule by these ranks keeps all edges, which one more pass makes sure of. It is true of each
/// history whose nodes can be ordered so, thus of each one without a cycle in which no version that
/// a transaction wrote over was read.
///
/// It takes a few numbers for each transaction and each version, and linear time.
pub fn settles(
    alloc: Global,
    deps: &Deps<'_, '_>,
    attempt: &mut Attempt,
) -> Result<bool, AllocError>
    ensures { IfOk result (λ settled.
        OnTrue settled (HasNoneRuledOut deps.now.table.keys ALL true deps.now.txns)) }
{
    if !attempt.put(alloc, deps.history())? {
        return Ok(false);
    }
    let ranks = attempt.ranks();
    Ok(keeps(deps, EdgeKinds::ALL, ranks, ranks, attempt.ends()))
}

/// True only if no cycle of edges of these kinds shows a phenomenon. False says nothing.
///
/// It is what `settles` does, with these edges alone.
pub fn settles_kinds(
    alloc: Global,
    deps: &Deps<'_, '_>,
    attempt: &Attempt,
    kinds: EdgeKinds,
) -> Result<bool, AllocError>
    ensures { IfOk result (λ settled.
        OnTrue settled (HasNoneRuledOut deps.now.table.keys kinds true deps.now.txns)) }
{
    let put = ranks(alloc, deps.history(), kinds, attempt.ends())?;
    if !put.is_all {
        return Ok(false);
    }
    let ranks = put.ranks.as_slice();
    Ok(keeps(deps, kinds, ranks, ranks, attempt.ends()))
}

/// True only if no cycle shows any phenomenon at the level plain. False says nothing.
///
/// It looks at the dependency edges alone, along the ranks that `settles` gave.
pub fn settles_plain(deps: &Deps<'_, '_>, attempt: &Attempt) -> bool
    ensures { OnTrue result (HasNoneRuledOut deps.now.table.keys PLAIN true deps.now.txns) }
{
    let ranks = attempt.ranks();
    keeps(deps, EdgeKinds::PLAIN, ranks, ranks, attempt.ends())
}

/// True only if no cycle of edges of these kinds shows G0, G1c or G-single. False says nothing.
///
/// It is what `settles` does, with two ranks for each transaction: one of its start, when its
/// snapshot was taken, and one of its commit. A transaction starts after the commits of those that
/// it depends on otherwise than by an rw edge, and commits after the starts of those that read what
/// it wrote over. It is true of each history whose starts and commits can be ordered so, thus of
/// those of strong snapshot isolation, also where they have write skew. What `settles` put before
/// it put one ahead of its invocation starts and commits at the rank that it has from there.
///
/// It takes twice the numbers for each transaction that `settles` takes, and linear time.
pub fn settles_snapshots(
    alloc: Global,
    deps: &Deps<'_, '_>,
    attempt: &Attempt,
    kinds: EdgeKinds,
) -> Result<bool, AllocError>
    ensures { IfOk result (λ settled.
        OnTrue settled (HasNoneRuledOut deps.now.table.keys kinds false deps.now.txns)) }
{
    match Snapshots::of(
        alloc,
        deps.history(),
        attempt.ranks(),
        attempt.timely(),
        attempt.ends(),
    )? {
        None => Ok(false),
        Some(ranks) => Ok(keeps(deps, kinds, ranks.starts(), ranks.commits(), attempt.ends())),
    }
}
