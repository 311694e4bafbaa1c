//! Invocations and their completions, found event by event.

ghost use Rattle.std.specs.Prelude.{◌≡◌, ◌<◌, [], length, true, Some, IfSome, IfOk, OnOk, OnErr};
ghost use Rattle.hist_types.specs.Journal.{is_invoke};
ghost use Rattle.hist_types.specs.declared.limits.TheConstants.{MAX_EVENTS};
ghost use Rattle.txn_pairs.specs.Outcomes.{outcome_by};
ghost use Rattle.txn_pairs.specs.Growth.{TakesEvent, BeginsOne, CompletesIfOpen, IsChange};

use crate::types::{Txn, Txns};
use hist_types::types::{OpKind, Outcome};
use op_view::op::OpView;
use process_map::map::ProcessMap;
use std::alloc::{AllocError, Global};
use std::marker::Model;

/// The transactions of the events so far. It takes one event after the other, each by one look-up
/// of its process.
#[derive(Drop)]
pub struct Pairing<'a> {
    txns: Txns<'a>,
    /// The index in the list of each process's open transaction.
    places: ProcessMap<usize>,
}

impl<'a> Model for Pairing<'a> {
    ghost use Rattle.std.specs.Prelude.{◌≡◌, ℕ, List};
    ghost use Rattle.std.specs.Coded.{coded_list};
    ghost use Rattle.process_map.specs.Values.{value_of};
    ghost use Rattle.hist_types.specs.Transactions.{Transaction};
    ghost use Rattle.hist_types.specs.Stored.{coded_transaction};
    ghost use Rattle.txn_pairs.specs.Places.{open_place};

    ghost Value = { List Transaction };

    ghost coded = { coded_list coded_transaction };

    ghost view = { λ pairing. pairing.txns };

    ghost invariant = { λ pairing.
        (p : ℕ) → value_of pairing.places p ≡ open_place p pairing.txns };
}

/// How an event of this kind completes a transaction; none where it begins one.
fn outcome_of(kind: OpKind) -> Option<Outcome>
    ensures { result ≡ outcome_by kind }
{
    match kind {
        OpKind::Invoke => None,
        OpKind::Ok => Some(Outcome::Ok),
        OpKind::Fail => Some(Outcome::Fail),
        OpKind::Info => Some(Outcome::Info),
    }
}

impl<'a> Pairing<'a> {
    /// The pairing of no events.
    pub fn new(alloc: Global) -> Self
        ensures { result ≡ [] }
    {
        Pairing {
            txns: Txns::new(alloc),
            places: ProcessMap::new(alloc),
        }
    }

    /// Makes room for n more transactions. It changes nothing else.
    pub fn reserve(&mut self, transactions: usize) -> Result<(), AllocError>
        ensures { self.new ≡ self.old }
    {
        self.txns.reserve(transactions)
    }

    /// Takes the event with this index, which comes after all that were taken, and returns the
    /// index in the list of the transaction that it begins or completes. A completion of a process
    /// with no open transaction changes nothing. Out of memory leaves the state as it was.
    #[inline(always)]
    pub fn take(&mut self, index: u64, op: OpView<'a>) -> Result<Option<usize>, AllocError>
        requires { index < MAX_EVENTS }
        ensures ok { OnOk result (TakesEvent index op.entry self.old self.new) }
        ensures place { IfOk result (λ place. IsChange index op.entry place self.old self.new) }
        ensures within { IfOk result (λ place. IfSome place (λ p. p < length self.new)) }
        ensures err { OnErr result (self.new ≡ self.old) }
    {
        match outcome_of(op.kind()) {
            None => Ok(Some(self.begin(index, op)?)),
            Some(outcome) => Ok(self.complete(index, outcome, op)),
        }
    }

    /// Takes an invocation, and returns the index in the list of its transaction.
    #[inline(always)]
    fn begin(&mut self, index: u64, op: OpView<'a>) -> Result<usize, AllocError>
        requires index { index < MAX_EVENTS }
        requires invoke { is_invoke op.kind ≡ true }
        ensures ok { OnOk result (TakesEvent index op.entry self.old self.new) }
        ensures place { IfOk result (λ place. BeginsOne index op.entry (Some place) self.old self.new) }
        ensures within { IfOk result (λ place. place < length self.new) }
        ensures err { OnErr result (self.new ≡ self.old) }
    {
        let txns = &mut self.txns;
        let place = txns.list.len();
        txns.list.try_reserve(1)?;
        self.places.insert(op.process().number(), place)?;
        txns.list.push_reserved(Txn::open(index, op));
        Ok(place)
    }

    /// Takes a completion, and returns the index in the list of the transaction that it completes,
    /// if its process has one open.
    #[inline(always)]
    fn complete(&mut self, index: u64, outcome: Outcome, op: OpView<'a>) -> Option<usize>
        requires index { index < MAX_EVENTS }
        requires outcome { outcome_by op.kind ≡ Some outcome }
        ensures takes { TakesEvent index op.entry self.old self.new }
        ensures place { CompletesIfOpen index op.entry result self.old self.new }
        ensures within { IfSome result (λ place. place < length self.new) }
    {
        let place = self.places.remove(op.process().number())?;
        self.txns.complete(place, index, outcome, op);
        Some(place)
    }

    /// The transactions of the events so far.
    pub fn txns(&self) -> &Txns<'a>
        ensures { result.now ≡ self.now }
    {
        &self.txns
    }

    /// The transactions, when no more events come.
    pub fn transactions(self) -> Txns<'a>
        ensures { result ≡ self.entry }
    {
        self.txns
    }
}
