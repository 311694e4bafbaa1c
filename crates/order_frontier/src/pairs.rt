//! All pairs of transactions in order.

ghost use Rattle.std.specs.Prelude.{◌≡◌, ◌++◌, ◌∷◌, [], length, map, IfOk, OnOk, All};
ghost use Rattle.order_frontier.specs.Pairs.{all_before, is_earlier};
ghost use Rattle.order_frontier.specs.Predecessors.{AreOfEvents, HasOrderEdges, NoPredecessorTwice, name_of, names};

use crate::completions::completions;
use crate::types::{Completed, Order, Predecessor, Row, Span, short};
use std::alloc::{AllocError, Global};
use txn_pairs::types::Txn;

/// Whether an ok transaction completed before another one was invoked.
fn is_earlier(ok: &Completed, txn: &Txn<'_>) -> bool
    ensures { result ≡ is_earlier txn.now ok.now }
{
    u64::from(ok.completion) < txn.invocation() && u64::from(ok.invocation) != txn.invocation()
}

/// Adds an ok transaction to the lists if it comes before the other.
fn push_earlier(
    ok: &Completed,
    txn: &Txn<'_>,
    in_process: &mut Vec<Predecessor>,
    in_realtime: &mut Vec<Predecessor>,
) -> Result<(), AllocError>
    ensures in_process { OnOk result (in_process.new.items
        ≡ in_process.old.items ++ (all_before (ok.now ∷ []) txn.now).in_process) }
    ensures in_realtime { OnOk result (in_realtime.new.items
        ≡ in_realtime.old.items ++ (all_before (ok.now ∷ []) txn.now).in_realtime) }
{
    if is_earlier(ok, txn) {
        in_realtime.push(ok.predecessor())?;
        if u64::from(ok.process) == txn.process() {
            in_process.push(ok.predecessor())?;
        }
    }
    Ok(())
}

/// Adds all of the ok transactions that come before one to the lists.
fn push_before(
    done: &[Completed],
    txn: &Txn<'_>,
    in_process: &mut Vec<Predecessor>,
    in_realtime: &mut Vec<Predecessor>,
) -> Result<(), AllocError>
    ensures in_process { OnOk result (in_process.new.items
        ≡ in_process.old.items ++ (all_before done.now txn.now).in_process) }
    ensures in_realtime { OnOk result (in_realtime.new.items
        ≡ in_realtime.old.items ++ (all_before done.now txn.now).in_realtime) }
{
    for ok in done {
        push_earlier(ok, txn, in_process, in_realtime)?;
    }
    Ok(())
}

/// The row of a transaction, whose predecessors go into the lists.
fn row_of(
    done: &[Completed],
    txn: &Txn<'_>,
    in_process: &mut Vec<Predecessor>,
    in_realtime: &mut Vec<Predecessor>,
) -> Result<Row, AllocError>
    ensures in_process { OnOk result (in_process.new.items
        ≡ in_process.old.items ++ (all_before done.now txn.now).in_process) }
    ensures in_realtime { OnOk result (in_realtime.new.items
        ≡ in_realtime.old.items ++ (all_before done.now txn.now).in_realtime) }
    ensures row { IfOk result (λ row. row ≡ record {
      process = txn.now.process;
      invocation = txn.now.invocation;
      in_process = record {
        start = length in_process.old.items;
        end = length in_process.new.items;
      };
      in_realtime = record {
        start = length in_realtime.old.items;
        end = length in_realtime.new.items;
      };
    }) }
{
    let first = in_process.len();
    let start = in_realtime.len();
    push_before(done, txn, in_process, in_realtime)?;
    Ok(Row {
        process: short(txn.process())?,
        invocation: short(txn.invocation())?,
        in_process: Span::new(first, in_process.len())?,
        in_realtime: Span::new(start, in_realtime.len())?,
    })
}

/// The order with all predecessors of each transaction.
pub fn all(alloc: Global, txns: &[Txn<'_>]) -> Result<Order, AllocError>
    ensures edges { IfOk result (λ order. HasOrderEdges txns.now order) }
    ensures once { AreOfEvents txns.now → IfOk result (λ order. All NoPredecessorTwice order) }
    ensures names { IfOk result (λ order. names order ≡ map name_of txns.now) }
{
    let done = completions(alloc, txns)?;
    let mut rows = Vec::with_capacity(alloc, txns.len())?;
    let mut in_process = Vec::new(alloc);
    let mut in_realtime = Vec::new(alloc);
    for txn in txns {
        rows.push(row_of(&done, txn, &mut in_process, &mut in_realtime)?)?;
    }
    Ok(Order::of_ranges(rows, in_process, in_realtime))
}
