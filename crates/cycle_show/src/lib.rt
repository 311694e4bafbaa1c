//! Witnesses of cycles: closed walks reduced to what a reader needs.
#![tactic(auto)]

ghost use Rattle.std.specs.Prelude.{◌≡◌, ◌≤◌, IfOk, IfErr};
ghost use Rattle.hist_types.specs.Refusals.{memory_fault};
ghost use Rattle.hist_types.specs.Witness.{dependencies_in};
ghost use Rattle.cycle_show.specs.Reductions.{IsWitnessOf};

mod kinds;
mod path;
pub mod types;

use crate::types::Witness;
use cycle_find::types::Walk;
use hist_types::types::Fault;
use std::alloc::Global;

/// Reduces a closed walk to a witness. It leaves out what lies between two visits of a transaction,
/// joins order edges that follow each other into the one between their ends, and begins at the
/// least transaction.
///
/// Whatever phenomenon the walk shows, at whatever level, the witness shows it at that level, with
/// no more dependency edges than the walk has. The walk's order edges may be thinned ones. It takes
/// time and memory linear in the walk's length. The only error is out of memory.
pub fn tighten<'a>(alloc: Global, walk: &Walk<'a>) -> Result<Witness<'a>, Fault>
    ensures witness { IfOk result (IsWitnessOf walk.now) }
    ensures dependencies { IfOk result (λ told. dependencies_in told ≤ dependencies_in walk.now) }
    ensures err { IfErr result (λ fault. fault ≡ memory_fault) }
{
    Ok(Witness::of(alloc, walk)?)
}
