//! Dependency edges between the transactions of a history, and reads of what should not have been
//! seen.
#![tactic(auto)]

ghost use Rattle.std.specs.Prelude.{◌≡◌, IfOk, IfErr};
ghost use Rattle.hist_types.specs.Refusals.{memory_fault};
ghost use Rattle.key_versions.specs.KeyNumbers.{AreKeyNumbers};
ghost use Rattle.key_versions.specs.Tables.{IsTableOf};
ghost use Rattle.dep_edges.specs.Histories.{AreOfHistory};
ghost use Rattle.dep_edges.specs.Pieces.{ArePiecesOf, IsPieceOf};

mod bad_reads;
pub mod deps;
pub mod edge;
pub mod history;
pub mod laws;
mod nodes;
pub mod pieces;
mod possible;
pub mod types;

use crate::deps::Deps;
use crate::history::History;
use crate::pieces::{PieceDeps, piece};
use hist_types::types::Fault;
use key_versions::table::{KeyNumbers, Versions};
use std::alloc::{AllocError, Global};
use txn_pairs::types::Txns;

/// The dependencies of the transactions on each other. No edge is stored: the edges that leave a
/// transaction are found from what it reads and installs, over the table of the versions, which has
/// the order of the keys. The time is linear in the history.
///
/// The only error is out of memory.
pub fn edges<'v, 'a>(
    alloc: Global,
    txns: &'v Txns<'a>,
    versions: &'v Versions<'a>,
) -> Result<Deps<'v, 'a>, Fault>
    requires history { AreOfHistory txns.now }
    requires versions { IsTableOf versions.now.keys txns.now versions.now }
    ensures ok { IfOk result (λ deps. deps ≡ record { txns = txns.now; table = versions.now }) }
    ensures err { IfErr result (λ fault. fault ≡ memory_fault) }
{
    Ok(Deps::of(alloc, txns, versions)?)
}

/// A piece of a history's dependencies: what one look gives at each version of the keys with
/// numbers from `from` up to but not including `to`. Pieces can be made side by side, and `join`
/// puts them together. The time is linear in the history's versions, whichever keys are asked for.
///
/// The only error is out of memory.
pub fn edges_piece(
    alloc: Global,
    txns: &Txns<'_>,
    versions: &Versions<'_>,
    keys: &KeyNumbers,
    from: usize,
    to: usize,
) -> Result<PieceDeps, AllocError>
    requires history { AreOfHistory txns.now }
    requires versions { IsTableOf versions.now.keys txns.now versions.now }
    requires keys { AreKeyNumbers versions.now.versions keys.now.count keys.now.of_versions.items }
    ensures { IfOk result (IsPieceOf
        (record { txns = txns.now; table = versions.now }) keys.now.of_versions.items from to) }
{
    piece(
        alloc,
        &History::new(txns, versions),
        keys.of_versions.as_slice(),
        from,
        to,
    )
}

/// The dependencies that `edges` gives, from pieces that together have all keys, in any order.
///
/// The only error is out of memory.
pub fn join<'v, 'a>(
    alloc: Global,
    txns: &'v Txns<'a>,
    versions: &'v Versions<'a>,
    pieces: &[PieceDeps],
) -> Result<Deps<'v, 'a>, Fault>
    requires history { AreOfHistory txns.now }
    requires versions { IsTableOf versions.now.keys txns.now versions.now }
    requires pieces { ArePiecesOf
        (record { txns = txns.now; table = versions.now }) pieces.now }
    ensures ok { IfOk result (λ deps. deps ≡ record { txns = txns.now; table = versions.now }) }
    ensures err { IfErr result (λ fault. fault ≡ memory_fault) }
{
    Ok(Deps::of_pieces(alloc, History::new(txns, versions), pieces)?)
}
