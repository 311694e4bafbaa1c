//! What an event changes in what is kept of the events before it, if it begins or completes a
//! transaction.

ghost use Rattle.std.specs.Prelude.{◌≡◌, ℕ, List, [], ◌∷◌, ◌++◌, IfSome, IfOk, OnOk};
ghost use Rattle.hist_types.specs.Operations.{Operation};
ghost use Rattle.hist_types.specs.Transactions.{Transaction, transactions_of};
ghost use Rattle.key_versions.specs.Kept.{KeptVersions as Kept, AreKept, KeepNumbers, StayBeside};
ghost use Rattle.order_frontier.specs.Thinnings.{IsThinningOf};
ghost use Rattle.serial_points.specs.KeptPoints.{HasPoints};
ghost use Rattle.verdict.specs.Analysed.{AwaitsEvent, ChangesOne};

use hist_types::types::KeyOrder;
use key_versions::kept::KeptVersions;
use order_frontier::thinning::Thinning;
use serial_points::kept::Points;
use std::alloc::{AllocError, Global};
use std::hash::BuildHasher;
use txn_pairs::types::{Status, Txn};

/// The thinned order, after an event changed this transaction.
pub fn update_order(order: &mut Thinning, txn: &Txn<'_>) -> Result<(), AllocError>
    ensures { (events : List Operation) (event : Operation) (later : List Transaction) (place : ℕ)
        → ChangesOne events event later place txn.now → IsThinningOf events order.old
        → OnOk result (IsThinningOf (events ++ event ∷ []) order.new) }
{
    match txn.status() {
        Status::Open => order.begin(txn),
        Status::Ok => order.complete(txn),
        // Only an ok transaction comes before others.
        Status::Fail | Status::Info => Ok(()),
    }
}

/// The versions, after an event changed this transaction, which is at the place.
pub fn update_versions<'a, S: BuildHasher + Copy>(
    versions: &mut KeptVersions<'a, S>,
    place: usize,
    txn: &Txn<'a>,
) -> Result<(), AllocError>
    requires { (events : List Operation) × (event : Operation) × (later : List Transaction)
        × ChangesOne events event later place txn.now
        × AreKept (transactions_of events) versions.old }
    ensures kept { (events : List Operation) (event : Operation) (later : List Transaction)
        → ChangesOne events event later place txn.now
        → AreKept (transactions_of events) versions.old
        → OnOk result (AreKept later versions.new) }
    ensures others { OnOk result
        (StayBeside place versions.old.accesses versions.new.accesses) }
    ensures numbers { OnOk result (KeepNumbers versions.old.versions versions.new.versions) }
    ensures keys { versions.new.keys ≡ versions.old.keys }
{
    match txn.status() {
        Status::Open => versions.begin(txn),
        Status::Ok | Status::Fail | Status::Info => versions.complete(place, txn),
    }
}

/// The points of no events, if there is memory for them.
pub fn first_points(alloc: Global, keys: KeyOrder) -> Option<Points>
    ensures { (kept : Kept) → AreKept [] kept → IfSome result (HasPoints [] kept) }
{
    match Points::new(alloc, keys) {
        Ok(points) => Some(points),
        Err(_) => None,
    }
}

/// The points, after an event changed the transaction at the place. Once there are none, there are
/// none from then on.
pub fn points_after<'a, S: BuildHasher + Copy>(
    points: Option<Points>,
    txns: &[Txn<'a>],
    versions: &KeptVersions<'a, S>,
    place: usize,
) -> Result<Option<Points>, AllocError>
    requires { (events : List Operation) × (event : Operation) × (before : Kept)
        × IfSome points (AwaitsEvent events event before versions.now txns.now place) }
    ensures { (events : List Operation) (event : Operation) (before : Kept)
        → IfSome points (AwaitsEvent events event before versions.now txns.now place)
        → IfOk result (λ next. IfSome next (HasPoints (events ++ event ∷ []) versions.now)) }
{
    match points {
        Some(points) => points.after(txns, versions, place),
        None => Ok(None),
    }
}
