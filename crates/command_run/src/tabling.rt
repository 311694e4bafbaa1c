//! The table of a history's versions, and beside it the history's thinned order.

ghost use Rattle.std.specs.Prelude.{◌≡◌, IfSome, IfOk, IfErr};
ghost use Rattle.hist_types.specs.Refusals.{memory_fault};
ghost use Rattle.key_versions.specs.Kept.{AreKept};
ghost use Rattle.key_versions.specs.Tables.{IsTableOf};
ghost use Rattle.order_frontier.specs.Predecessors.{AreOfEvents, IsThinnedOrder};
ghost use Rattle.command_run.specs.Tabling.{IsTabled, IsThinned};

use hist_types::types::Fault;
use key_versions::kept::KeptVersions;
use key_versions::table::Versions;
use order_frontier::thinning::thinned;
use order_frontier::types::Order;
use std::alloc::Global;
use std::hash::BuildHasher;
use std::thread::{Threads, join};
use txn_pairs::types::Txns;

/// Work that can be done beside that of another thread.
trait Work {
    type Made;

    ghost can_begin: { Self → Type 0 };

    ghost makes: { Self → Self.Made → Type 0 };

    fn make(self) -> Self::Made
        requires { can_begin self }
        ensures { makes self result };
}

/// Makes the table of the versions that transactions name.
#[derive(Drop)]
struct Tabling<'t, 'a, S: BuildHasher> {
    alloc: Global,
    txns: &'t Txns<'a>,
    kept: KeptVersions<'a, S>,
}

impl<'t, 'a, S: BuildHasher + Copy> Work for Tabling<'t, 'a, S> {
    type Made = Result<Versions<'a>, Fault>;

    ghost can_begin = { λ t. AreKept t.txns.now t.kept };

    ghost makes = { λ t made. IsTabled t.kept.keys t.txns.now made };

    fn make(self) -> Result<Versions<'a>, Fault> {
        let Tabling { alloc, txns, kept } = self;
        Ok(kept.into_table(alloc, txns)?)
    }
}

/// Thins the order of transactions.
#[derive(Drop)]
struct Thinning<'t, 'a> {
    alloc: Global,
    txns: &'t Txns<'a>,
}

impl Work for Thinning<'_, '_> {
    type Made = Result<Order, Fault>;

    ghost can_begin = { λ t. AreOfEvents t.txns.now };

    ghost makes = { λ t made. IsThinned t.txns.now made };

    fn make(self) -> Result<Order, Fault> {
        let Thinning { alloc, txns } = self;
        Ok(thinned(alloc, txns.as_slice())?)
    }
}

/// What both make, by two threads if another can be started.
fn make_both<R: Threads, V: Work + Send + Drop, W: Work + Drop>(
    rt: &R,
    one: V,
    other: W,
) -> (V::Made, W::Made)
where
    V::Made: Send,
    requires one { V.can_begin one }
    requires other { W.can_begin other }
    ensures one { V.makes one result.0 }
    ensures other { W.makes other result.1 }
{
    join(
        rt,
        || -> V::Made
            requires { V.can_begin one }
            ensures { V.makes one result }
        { one.make() },
        || -> W::Made
            requires { W.can_begin other }
            ensures { W.makes other result }
        { other.make() },
    )
}

/// The table of the versions that the transactions name. Where there are several workers, a second
/// one makes the thinned order meanwhile. The only error is out of memory.
pub fn table_and_order<'a, R: Threads, S: BuildHasher + Copy>(
    rt: &R,
    alloc: Global,
    workers: usize,
    txns: &Txns<'a>,
    kept: KeptVersions<'a, S>,
) -> Result<(Versions<'a>, Option<Order>), Fault>
    requires events { AreOfEvents txns.now }
    requires kept { AreKept txns.now kept }
    ensures table { IfOk result (λ made. IsTableOf kept.entry.keys txns.now made.0) }
    ensures keys { IfOk result (λ made. made.0.keys ≡ kept.entry.keys) }
    ensures order { IfOk result (λ made. IfSome made.1 (IsThinnedOrder txns.now)) }
    ensures err { IfErr result (λ fault. fault ≡ memory_fault) }
{
    let tabling = Tabling { alloc, txns, kept };
    if workers == 1 {
        return Ok((tabling.make()?, None));
    }
    let (order, table) = make_both(rt, Thinning { alloc, txns }, tabling);
    Ok((table?, Some(order?)))
}
