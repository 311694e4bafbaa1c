//! The predecessors of each transaction: as all pairs, thinned, and by a frontier that moves from
//! event to event.

ghost use Rattle.std.specs.Prelude.{◌≡◌, IfOk};
ghost use Rattle.order_frontier.specs.Predecessors.{AreOfEvents};

use crate::stopped::Stopped;
use hist_types::limits::MAX_EVENTS;
use hist_types::types::{Fault, OpKind};
use journal_core::journal::Core;
use journal_core::prefix::Prefix;
use op_block::block::Block;
use op_view::op::OpView;
use order_frontier::frontier::Frontier;
use order_frontier::types::{Order, Predecessor};
use order_frontier::{all_pairs, thin};
use std::alloc::Global;
use std::io;
use txn_pairs::pair;
use txn_pairs::types::Txns;

/// Prints a transaction's predecessors, by the indexes of their invocations.
fn print_before<R: Print>(rt: &R, word: &str, before: &[Predecessor]) -> io::Result<()> {
    print!(rt; " {word}")?;
    for predecessor in before {
        print!(rt; " {}", predecessor.invocation)?;
    }
    Ok(())
}

/// Prints the predecessors of a transaction, whose invocation isn't said, in a line.
fn print_line<R: Print>(
    rt: &R,
    form: &str,
    in_process: &[Predecessor],
    in_realtime: &[Predecessor],
) -> io::Result<()> {
    print!(rt; "{form}")?;
    print_before(rt, "process", in_process)?;
    print_before(rt, "realtime", in_realtime)?;
    println!(rt)
}

/// Prints the predecessors of each transaction in this order.
fn print_order<R: Print>(rt: &R, form: &str, order: &Order) -> io::Result<()> {
    for place in 0..order.len() {
        print_line(rt, form, order.in_process(place), order.in_realtime(place))?;
    }
    Ok(())
}

/// Moves the frontier by an event, and prints the predecessors of a transaction that it invokes.
fn step<R: Print>(
    rt: &R,
    alloc: Global,
    frontier: &mut Frontier,
    op: &OpView<'_>,
) -> Result<(), Stopped> {
    if frontier.events() >= MAX_EVENTS {
        return Ok(());
    }
    match op.kind() {
        OpKind::Invoke => {
            let before = frontier.invoked(alloc, op.process())?;
            print_line(rt, "moved", before.in_process(), before.in_realtime())?;
        }
        OpKind::Ok => frontier.completed_ok(op.process())?,
        OpKind::Fail | OpKind::Info => frontier.completed_other(op.process()),
    }
    Ok(())
}

/// Prints the predecessors of each transaction by a frontier that moves from event to event.
fn print_moves<R: Print>(rt: &R, alloc: Global, prefix: &Prefix<'_>) -> Result<(), Stopped> {
    let mut frontier = Frontier::new(alloc);
    for index in 0..prefix.events() {
        step(rt, alloc, &mut frontier, &prefix.op(index))?;
    }
    Ok(())
}

/// The transactions of the journal's events.
fn txns_of<'a>(alloc: Global, prefix: &Prefix<'a>) -> Result<Txns<'a>, Fault>
    ensures { IfOk result (λ txns. AreOfEvents txns) }
{
    pair(alloc, prefix.as_events())
}

/// Prints the predecessors of each transaction of a history.
pub fn run<R: Print>(rt: &R, alloc: Global, block: &Block) -> Result<(), Stopped> {
    let core = Core::new(alloc).append(block)?;
    let prefix = core.prefix()?;
    let txns = txns_of(alloc, &prefix)?;
    print_order(rt, "all", &all_pairs(alloc, &txns)?)?;
    print_order(rt, "thinned", &thin(alloc, &txns)?)?;
    print_moves(rt, alloc, &prefix)
}
