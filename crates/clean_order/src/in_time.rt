//! Points of time, 2^32 to an event, and whether a transaction may have one.

ghost use Rattle.std.specs.Prelude.{◌≡◌, true};
ghost use Rattle.hist_types.specs.Transactions.{is_failed};
ghost use Rattle.clean_order.specs.Points.{IsNotBefore, IsNotAfter};

use txn_pairs::types::{Status, Txn};

/// How many points an event has.
pub const POINTS: u64 = 4_294_967_296;

/// Whether the transaction failed, so that it needs no point.
pub fn is_failed(txn: &Txn<'_>) -> bool
    ensures { result ≡ is_failed txn.now }
{
    txn.status() == Status::Fail
}

/// Whether the point is not before the transaction's invocation.
pub fn is_not_before(point: u64, txn: &Txn<'_>) -> bool
    ensures { result ≡ true → IsNotBefore point txn.now }
{
    match txn.invocation().checked_mul(POINTS) {
        Some(first) => first <= point,
        None => false,
    }
}

/// Whether the point is not after the transaction's completion, if there is one.
pub fn is_not_after(point: u64, txn: &Txn<'_>) -> bool
    ensures { result ≡ true → IsNotAfter point txn.now }
{
    let Some(completion) = txn.completion() else {
        return true;
    };
    match completion.checked_mul(POINTS) {
        Some(first) => point < first.saturating_add(POINTS),
        None => false,
    }
}
