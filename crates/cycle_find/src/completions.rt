//! Who completed before whom, and the first completions of transactions that follow a version.

ghost use Rattle.std.specs.Prelude.{◌≡◌, OnOk};
ghost use Rattle.std.specs.Bool.{OnTrue, OnFalse};
ghost use Rattle.hist_types.specs.Edges as edges;
ghost use Rattle.hist_types.specs.ThinnedOrder.{is_ordered};
ghost use Rattle.cycle_find.specs.Completions.{lane_of, ok_completion_of, IsKnownBy, KeepsKnown, IsKnown};

use hist_types::types::Level;
use process_map::map::ProcessMap;
use std::alloc::AllocError;
use txn_pairs::types::{Status, Txn};

/// When the first of the transactions that follow a version completed.
#[derive(Clone, Copy)]
pub(crate) struct Earliest {
    pub version: usize,
    pub completion: u64,
}

/// The index of the completion of an ok transaction.
fn ok_completion(txn: &Txn<'_>) -> Option<u64>
    ensures { result ≡ ok_completion_of txn.now }
{
    match txn.status() {
        Status::Ok => txn.completion(),
        Status::Fail | Status::Info | Status::Open => None,
    }
}

/// Whether the first transaction is ok and completed before the second was invoked.
fn is_ok_before(first: &Txn<'_>, second: &Txn<'_>) -> bool
    ensures { result ≡ edges.is_ok_before first.now second.now }
{
    match ok_completion(first) {
        Some(completion) => completion < second.invocation(),
        None => false,
    }
}

/// Whether the order of the level puts the first transaction before the second.
pub(crate) fn is_before(level: Level, first: &Txn<'_>, second: &Txn<'_>) -> bool
    ensures { result ≡ is_ordered level first.now second.now }
{
    match level {
        Level::Plain => false,
        Level::Process => is_ok_before(first, second) && first.process() == second.process(),
        Level::Realtime => is_ok_before(first, second),
    }
}

/// The lane of a transaction. The order of the level joins none of different lanes.
pub(crate) fn lane(level: Level, txn: &Txn<'_>) -> u64
    ensures { result ≡ lane_of level txn.now }
{
    match level {
        Level::Process => txn.process(),
        Level::Plain | Level::Realtime => 0,
    }
}

/// Whether a follower of the version in the lane is known to have completed by the event of the
/// index.
pub(crate) fn is_known_by(
    earliest: &ProcessMap<Earliest>,
    version: usize,
    lane: u64,
    index: u64,
) -> bool
    ensures known { OnTrue result (IsKnownBy earliest.now version lane index) }
    ensures unknown { OnFalse result (¬ IsKnownBy earliest.now version lane index) }
{
    match earliest.get(lane) {
        Some(first) => first.version == version && first.completion <= index,
        None => false,
    }
}

/// Notes when a follower of the version completed, if it is ok and the first of its lane.
pub(crate) fn note(
    level: Level,
    version: usize,
    follower: &Txn<'_>,
    earliest: &mut ProcessMap<Earliest>,
) -> Result<(), AllocError>
    ensures kept { OnOk result (KeepsKnown version earliest.old earliest.new) }
    ensures noted { OnOk result (IsKnown level version follower.now earliest.new) }
{
    let Some(completion) = ok_completion(follower) else {
        return Ok(());
    };
    let lane = lane(level, follower);
    if !is_known_by(earliest, version, lane, completion) {
        earliest.insert(
            lane,
            Earliest {
                version,
                completion,
            },
        )?;
    }
    Ok(())
}
