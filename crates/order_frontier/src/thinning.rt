//! The thinned order, transaction by transaction.

ghost use Rattle.std.specs.Prelude.{◌≡◌, ◌<◌, ◌≤◌, ℕ, List, [], map, take, ◌++◌, length, All, IfOk, OnOk, OnErr, not, ◌==◌, if◌then◌else◌, Some, slice_index_or};
ghost use Rattle.process_map.specs.Values.{value_of};
ghost use Rattle.hist_types.specs.Operations.{Operation};
ghost use Rattle.hist_types.specs.Transactions.{transactions_of};
ghost use Rattle.order_frontier.specs.Completions.{AreKept, AreTimely, frontier_after, predecessor_of};
ghost use Rattle.order_frontier.specs.Predecessors.{AreOfEvents, IsThinnedOrder, HasThinned, NoPredecessorTwice, name_of, names};
ghost use Rattle.order_frontier.specs.Thinnings.{IsThinningOf, with_begun, IsBegunBy, IsCompletedBy, Follows, IsOfSame};

use crate::completions::{completed, completions};
use crate::moving::Moving;
use crate::types::{Completed, Order};
use std::alloc::{AllocError, Global};
use std::marker::Model;
use txn_pairs::types::Txn;

/// The thinned order of the transactions so far, kept while more events come. The predecessors of a
/// transaction are settled when it is invoked, so the order only grows.
#[derive(Drop)]
pub struct Thinning {
    moving: Moving,
    order: Order,
    /// How many members of the frontier, from the first on, are predecessors of the last
    /// transaction too. The others completed after its invocation.
    shared: usize,
}

impl Model for Thinning {
    ghost use mathlib.Core.List.{IsSuffix};
    ghost use Rattle.std.specs.Prelude.{◌≤◌, length, take};
    ghost use Rattle.order_frontier.specs.Predecessors.{last_realtime};
    ghost use Rattle.order_frontier.specs.Thinnings.{Thinned};

    ghost Value = { Thinned };

    ghost view = { λ t. record {
      recent = t.moving.recent.items;
      last = t.moving.last;
      order = t.order;
    } };

    ghost invariant = { λ t.
        (t.shared ≤ length t.moving.recent.items)
        × IsSuffix (take t.shared t.moving.recent.items) (last_realtime t.order) };
}

impl Thinning {
    /// The order before the first event.
    pub fn new(alloc: Global) -> Self
        ensures { IsThinningOf [] result }
    {
        Thinning {
            moving: Moving::new(alloc),
            order: Order::new(alloc),
            shared: 0,
        }
    }

    /// The order before the first event, with room for `transactions` transactions, `ok` of which
    /// are ok.
    fn with_capacity(alloc: Global, transactions: usize, ok: usize) -> Result<Self, AllocError>
        ensures { IfOk result (IsThinningOf []) }
    {
        Ok(Thinning {
            moving: Moving::new(alloc),
            order: Order::with_capacity(alloc, transactions, ok)?,
            shared: 0,
        })
    }

    /// The next event invoked this transaction. Out of memory leaves the order as it was.
    pub fn begin(&mut self, txn: &Txn<'_>) -> Result<(), AllocError>
        ensures begun { OnOk result (self.new ≡ with_begun self.old txn.now) }
        ensures next { OnOk result (Follows IsBegunBy txn.now self.old self.new) }
        ensures err { OnErr result (self.new ≡ self.old) }
    {
        self.order
            .push(txn.process(), txn.invocation(), &self.moving, self.shared)?;
        self.shared = self.moving.frontier().len();
        Ok(())
    }

    /// The next event completed this transaction as an ok. Out of memory leaves the order as it
    /// was. A fail or an info changes nothing, nor does an ok that completes no transaction
    /// (`other_completions_change_nothing` of `laws`).
    pub fn complete(&mut self, txn: &Txn<'_>) -> Result<(), AllocError>
        ensures next { OnOk result (Follows IsCompletedBy txn.now self.old self.new) }
        ensures err { OnErr result (IsOfSame self.old self.new) }
    {
        match completed(txn)? {
            Some(done) => self.pass(done),
            None => Ok(()),
        }
    }

    /// Takes an ok transaction into the frontier.
    fn pass(&mut self, done: Completed) -> Result<(), AllocError>
        ensures recent { OnOk result (self.new.recent ≡ frontier_after self.old.recent done) }
        ensures last { OnOk result
            ((p : ℕ) → value_of self.new.last p
            ≡ (if done.process == p then Some (predecessor_of done)
            else value_of self.old.last p)) }
        ensures order { self.new.order ≡ self.old.order }
        ensures err { OnErr result (IsOfSame self.old self.new) }
    {
        let passed = self.moving.complete(done)?;
        self.shared = self.shared.saturating_sub(passed);
        Ok(())
    }

    /// Takes the first of the ok transactions, those that completed before the index, and returns
    /// how many these are.
    fn advance(&mut self, done: &[Completed], index: u64) -> Result<usize, AllocError>
        ensures kept { IfOk result
            (λ count. (earlier : List _) → AreTimely (earlier ++ done.now)
            → AreKept earlier self.old.recent (value_of self.old.last)
            → AreKept (earlier ++ take count done.now)
            self.new.recent (value_of self.new.last)) }
        ensures count { IfOk result (λ count. count ≤ length done.now) }
        ensures before { IfOk result
            (λ count. All (λ d. d.completion < index) (take count done.now)) }
        ensures next { IfOk result
            (λ count. (d : _) → count < length done.now
            → index ≤ (slice_index_or done.now count d).completion) }
        ensures order { self.new.order ≡ self.old.order }
    {
        for (count, ok) in done.iter().enumerate() {
            if u64::from(ok.completion) >= index {
                return Ok(count);
            }
            self.pass(*ok)?;
        }
        Ok(done.len())
    }

    /// Each transaction so far, with its predecessors.
    pub fn order(&self) -> &Order
        ensures { (events : List Operation) → IsThinningOf events self.now
            → IsThinnedOrder (transactions_of events) result.now }
    {
        &self.order
    }

    fn into_order(self) -> Order
        ensures { result ≡ self.order }
    {
        let Thinning {
            moving: _,
            order,
            shared: _,
        } = self;
        order
    }
}

/// What `thin` gives, of the transactions of a history. The only error is out of memory.
pub fn thinned(alloc: Global, txns: &[Txn<'_>]) -> Result<Order, AllocError>
    requires { AreOfEvents txns.now }
    ensures { IfOk result (IsThinnedOrder txns.now) }
{
    let done = completions(alloc, txns)?;
    let mut thinning = Thinning::with_capacity(alloc, txns.len(), done.len())?;
    let mut taken = 0;
    for txn in txns {
        taken += thinning.advance(&done[taken..], txn.invocation())?;
        thinning.begin(txn)?;
    }
    Ok(thinning.into_order())
}
