//! Looks at a history without a graph.

ghost use Rattle.std.specs.Prelude.{◌≡◌};
ghost use Rattle.hist_types.specs.Transactions.{transactions_of};

use crate::stopped::Stopped;
use clean_order::attempt::Attempt;
use clean_order::{settles, settles_kinds, settles_plain, settles_snapshots};
use cycle_find::single::single_in_process;
use cycle_find::two_dependencies::{Mutual, find_mutual, linear_steps};
use dep_edges::deps::Deps;
use dep_edges::edges;
use hist_types::types::{Fault, KeyOrder, Phenomenon};
use journal_core::journal::Core;
use journal_core::prefix::Prefix;
use key_versions::versions;
use op_block::block::Block;
use schedules::types::EdgeKinds;
use std::alloc::Global;
use std::hash::{BuildHasherDefault, FoldHasher};
use txn_pairs::pair;
use txn_pairs::types::Txns;

/// What an order of the nodes rules out.
#[derive(Clone, Copy, Debug)]
struct Settled {
    settles: bool,
    settles_writes: bool,
    settles_dirty_writes: bool,
    settles_plain: bool,
    settles_snapshots: bool,
    settles_single_at_plain: bool,
}

/// What a look at each version finds.
#[derive(Clone, Copy, Debug)]
struct Found {
    has_circular_flow: bool,
    has_single_at_plain: bool,
    has_single_in_process: bool,
    has_item_at_plain: bool,
}

fn settled_of(alloc: Global, deps: &Deps<'_, '_>) -> Result<Settled, Fault> {
    let mut attempt = Attempt::new(alloc, deps)?;
    Ok(Settled {
        settles: settles(alloc, deps, &mut attempt)?,
        settles_writes: settles_kinds(alloc, deps, &attempt, EdgeKinds::WITHOUT_RW)?,
        settles_dirty_writes: settles_kinds(alloc, deps, &attempt, EdgeKinds::WITHOUT_READS)?,
        settles_plain: settles_plain(deps, &attempt),
        settles_snapshots: settles_snapshots(alloc, deps, &attempt, EdgeKinds::ALL)?,
        settles_single_at_plain: settles_snapshots(alloc, deps, &attempt, EdgeKinds::PLAIN)?,
    })
}

/// Whether two transactions show the phenomenon.
fn is_shown(alloc: Global, deps: &Deps<'_, '_>, phenomenon: Phenomenon) -> Result<bool, Fault> {
    match find_mutual(alloc, deps, phenomenon, linear_steps(deps))? {
        Mutual::Found(_) => Ok(true),
        Mutual::Nowhere | Mutual::Unknown => Ok(false),
    }
}

fn found_of(alloc: Global, deps: &Deps<'_, '_>) -> Result<Found, Fault> {
    Ok(Found {
        has_circular_flow: is_shown(alloc, deps, Phenomenon::G1c)?,
        has_single_at_plain: is_shown(alloc, deps, Phenomenon::GSingle)?,
        has_single_in_process: single_in_process(alloc, deps)?.is_some(),
        has_item_at_plain: is_shown(alloc, deps, Phenomenon::G2Item)?,
    })
}

/// Looks at transactions of events that keep the rules.
fn told_of<'a>(
    alloc: Global,
    prefix: &Prefix<'a>,
    txns: &Txns<'a>,
) -> Result<(Settled, Found), Fault>
    requires { txns.now ≡ transactions_of prefix.now }
{
    // Called for its clause: the events keep the rules.
    let _rules = prefix.events();
    let hasher = BuildHasherDefault::<FoldHasher>::new();
    let versions = versions(alloc, txns, hasher, KeyOrder::Basic)?;
    let deps = edges(alloc, txns, &versions)?;
    Ok((settled_of(alloc, &deps)?, found_of(alloc, &deps)?))
}

/// Looks at the history of standard input, and prints what the looks find.
pub fn run<R: Print>(rt: &R, alloc: Global, block: &Block) -> Result<(), Stopped> {
    let core = Core::new(alloc).append(block)?;
    let prefix = core.prefix()?;
    let txns = pair(alloc, prefix.as_events())?;
    let (settled, found) = told_of(alloc, &prefix, &txns)?;
    println!(rt; "{settled:?}")?;
    println!(rt; "{found:?}")?;
    Ok(())
}
