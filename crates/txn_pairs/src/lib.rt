//! The transactions of events, whose micro-operations stay in the blocks.
#![tactic(auto)]

ghost use Rattle.std.specs.Prelude.{◌≡◌, IfOk, IfErr};
ghost use Rattle.hist_types.specs.Refusals.{memory_fault};
ghost use Rattle.hist_types.specs.Transactions.{transactions_of};

pub mod pairing;
pub mod types;

use crate::pairing::Pairing;
use crate::types::Txns;
use hist_types::types::Fault;
use journal_core::events::Events;
use std::alloc::Global;

/// The transactions of the events, by one pass over them, whatever rules the events keep. They
/// borrow the blocks, and not the events.
///
/// The only error is out of memory.
pub fn pair<'a>(alloc: Global, events: &Events<'a>) -> Result<Txns<'a>, Fault>
    ensures ok { IfOk result (λ txns. txns ≡ transactions_of events.now) }
    ensures err { IfErr result (λ fault. fault ≡ memory_fault) }
{
    let mut pairing = Pairing::new(alloc);
    // Where the rules are kept, each completion has an invocation of its own, so half of the events
    // or more are invocations.
    pairing.reserve(events.len() as usize / 2)?;
    let mut index = 0;
    for event in events.iter() {
        pairing.take(index, event)?;
        index += 1;
    }
    Ok(pairing.transactions())
}
