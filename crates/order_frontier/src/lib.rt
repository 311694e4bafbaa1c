//! Session order and real-time order: as all pairs, and thinned to a moving frontier.
#![tactic(auto)]

ghost use Rattle.std.specs.Prelude.{◌≡◌, map, All, IfOk, IfErr};
ghost use Rattle.hist_types.specs.Refusals.{memory_fault};
ghost use Rattle.order_frontier.specs.Predecessors.{AreOfEvents, HasOrderEdges, HasThinnedEdges, NoPredecessorTwice, name_of, names};

mod completions;
pub mod frontier;
pub mod laws;
mod moving;
mod pairs;
pub mod thinning;
pub mod types;

use crate::types::Order;
use hist_types::types::Fault;
use std::alloc::Global;
use txn_pairs::types::Txns;

/// All predecessors of each transaction in its process and in real time, as if every transaction
/// were a node.
///
/// This is the definition of the order, and it grows with the square of the history: it is for
/// comparison. The only error is out of memory.
pub fn all_pairs(alloc: Global, txns: &Txns<'_>) -> Result<Order, Fault>
    ensures edges { IfOk result (HasOrderEdges txns.now) }
    ensures once { AreOfEvents txns.now → IfOk result (λ order. All NoPredecessorTwice order) }
    ensures transactions { IfOk result (λ order. names order ≡ map name_of txns.now) }
    ensures err { IfErr result (λ fault. fault ≡ memory_fault) }
{
    Ok(pairs::all(alloc, txns.as_slice())?)
}

/// The thinned predecessors of each transaction: its process's last ok transaction before it, and
/// the moving frontier at its invocation. It is one pass over the transactions and over the
/// completions of the ok ones.
///
/// The only error is out of memory.
pub fn thin(alloc: Global, txns: &Txns<'_>) -> Result<Order, Fault>
    requires { AreOfEvents txns.now }
    ensures edges { IfOk result (HasThinnedEdges txns.now) }
    ensures once { IfOk result (λ order. All NoPredecessorTwice order) }
    ensures transactions { IfOk result (λ order. names order ≡ map name_of txns.now) }
    ensures err { IfErr result (λ fault. fault ≡ memory_fault) }
{
    Ok(thinning::thinned(alloc, txns.as_slice())?)
}
