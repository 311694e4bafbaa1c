//! Which transactions are nodes.

ghost use Rattle.std.specs.Prelude.{◌≡◌, ◌<◌, length, map, All, IfOk};
ghost use Rattle.hist_types.specs.Transactions.{is_ok, is_failed, is_node};
ghost use Rattle.key_versions.specs.Tables.{IsTableOf};
ghost use Rattle.dep_edges.specs.Pieces.{ArePiecesOf, with_marks};

use crate::history::History;
use crate::pieces::PieceDeps;
use std::alloc::{AllocError, Global};
use txn_pairs::types::{Status, Txn};

fn is_ok(txn: &Txn<'_>) -> bool
    ensures { result ≡ is_ok txn.now }
{
    txn.status() == Status::Ok
}

pub fn is_failed(txn: &Txn<'_>) -> bool
    ensures { result ≡ is_failed txn.now }
{
    txn.status() == Status::Fail
}

/// A mark for each transaction, whether it is ok.
fn ok_marks(alloc: Global, txns: &[Txn<'_>]) -> Result<Vec<bool>, AllocError>
    ensures { IfOk result (λ marks. marks.items ≡ map is_ok txns.now) }
{
    txns.iter().map(is_ok).collect(alloc)
}

/// Marks the transactions at these indexes.
fn mark_all(nodes: &mut [bool], places: &[u32])
    requires { All (λ place. place < length nodes.old) places.now }
    ensures { nodes.new ≡ with_marks nodes.old places.now }
{
    for place in places {
        nodes[*place as usize] = true;
    }
}

/// A mark for each transaction, whether it is a node: all ok ones are, and each info or open one
/// that wrote a version which an ok transaction reads, also one that it wrote over. A transaction
/// may be a node by a version of another piece.
pub fn nodes(
    alloc: Global,
    history: &History<'_, '_>,
    pieces: &[PieceDeps],
) -> Result<Vec<bool>, AllocError>
    requires versions { IsTableOf history.now.table.keys history.now.txns history.now.table }
    requires pieces { ArePiecesOf history.now pieces.now }
    ensures { IfOk result (λ nodes. nodes.items ≡ map (is_node history.now.txns) history.now.txns) }
{
    let mut nodes = ok_marks(alloc, history.txns())?;
    for piece in pieces {
        mark_all(&mut nodes, piece.writers());
    }
    Ok(nodes)
}
