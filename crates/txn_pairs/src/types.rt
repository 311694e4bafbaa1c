//! Transactions, whose micro-operations stay in the journal's blocks.

ghost use Rattle.std.specs.Prelude.{◌≡◌, ◌<◌, [], length, Some, None};
ghost use Rattle.hist_types.specs.Transactions.{transaction_by};
ghost use Rattle.hist_types.specs.declared.limits.TheConstants.{MAX_EVENTS};
ghost use Rattle.txn_pairs.specs.Outcomes.{outcome_by};
ghost use Rattle.txn_pairs.specs.Places.{completed, completed_at};
ghost use Rattle.txn_pairs.specs.Statuses.{status_of};

use hist_types::types::Outcome;
use op_block::block::Block;
use op_view::mops::Mops;
use op_view::op::OpView;
use std::alloc::{AllocError, Global};
use std::marker::Model;

/// How a transaction ended, as far as the journal says.
#[derive(Clone, Copy, Debug, PartialEq, Eq)]
pub enum Status {
    Ok,
    Fail,
    Info,
    /// The transaction has no completion.
    Open,
}

/// A transaction, named by the index of its invocation. It borrows the block that its
/// micro-operations are in.
#[derive(Drop)]
pub struct Txn<'a> {
    /// The block of the operation that has its micro-operations: an ok if that completed it, else
    /// its invocation.
    block: &'a Block,
    process: u32,
    invocation: u32,
    /// The index of its completion among the events. An open transaction has none, and 0 here.
    completion: u32,
    /// The operation's index in its block.
    op_index: u16,
    status: Status,
}

const _: () = prove!(size_of::<Txn>() <= 24);

impl<'a> Model for Txn<'a> {
    ghost use Rattle.hist_types.specs.Transactions.{Transaction};
    ghost use Rattle.hist_types.specs.Stored.{coded_transaction};

    ghost Value = { Transaction };

    ghost coded = { coded_transaction };

    ghost use Rattle.std.specs.Prelude.{◌<◌, length};
    ghost use Rattle.op_view.specs.Operations.{operation_in};
    ghost use Rattle.txn_pairs.specs.Statuses.{status_of, completion_by};

    ghost view = { λ t. record {
      process = t.process;
      invocation = t.invocation;
      completion = completion_by t.status t.completion;
      status = status_of t.status;
      mops = (operation_in t.block.now.operations t.op_index).mops;
    } };

    ghost invariant = { λ t. t.op_index < length t.block.now.operations };
}

impl<'a> Txn<'a> {
    /// The open transaction of an invocation with this index.
    pub(crate) fn open(index: u64, op: OpView<'a>) -> Self
        requires { index < MAX_EVENTS }
        ensures { result ≡ transaction_by index op.entry None }
    {
        let process = op.process().number() as u32;
        let (block, op_index) = op.place();
        Txn {
            block,
            process,
            invocation: index as u32,
            completion: 0,
            op_index,
            status: Status::Open,
        }
    }

    /// Completes the open transaction by an event with this index.
    pub(crate) fn complete(&mut self, index: u64, outcome: Outcome, op: OpView<'a>)
        requires index { index < MAX_EVENTS }
        requires outcome { outcome_by op.kind ≡ Some outcome }
        ensures { self.new ≡ completed self.old index op.entry }
    {
        self.completion = index as u32;
        match outcome {
            Outcome::Ok => {
                (self.block, self.op_index) = op.place();
                self.status = Status::Ok;
            }
            Outcome::Fail => self.status = Status::Fail,
            Outcome::Info => self.status = Status::Info,
        }
    }

    /// The number of the transaction's process.
    pub fn process(&self) -> u64
        ensures { result ≡ self.now.process }
    {
        u64::from(self.process)
    }

    /// The index of the transaction's invocation among the events.
    pub fn invocation(&self) -> u64
        ensures { result ≡ self.now.invocation }
    {
        u64::from(self.invocation)
    }

    /// The index of the transaction's completion among the events, if it has one.
    pub fn completion(&self) -> Option<u64>
        ensures { result ≡ self.now.completion }
    {
        match self.status {
            Status::Open => None,
            Status::Ok | Status::Fail | Status::Info => Some(u64::from(self.completion)),
        }
    }

    pub fn status(&self) -> Status
        ensures { status_of result ≡ self.now.status }
    {
        self.status
    }

    /// The micro-operations of the transaction: its completion's if that is an ok, else its
    /// invocation's.
    pub fn mops(&self) -> Mops<'a>
        ensures { result ≡ self.now.mops }
    {
        OpView::of(self.block, usize::from(self.op_index)).mops()
    }
}

/// The transactions of a journal, in the order of their invocations.
#[derive(Drop)]
pub struct Txns<'a> {
    pub(crate) list: Vec<Txn<'a>>,
}

impl<'a> Model for Txns<'a> {
    ghost use Rattle.std.specs.Prelude.{List};
    ghost use Rattle.std.specs.Coded.{coded_list};
    ghost use Rattle.hist_types.specs.Transactions.{Transaction};
    ghost use Rattle.hist_types.specs.Stored.{coded_transaction};

    ghost Value = { List Transaction };

    ghost coded = { coded_list coded_transaction };

    ghost view = { λ txns. txns.list.items };
}

impl<'a> Txns<'a> {
    pub(crate) fn new(alloc: Global) -> Self
        ensures { result ≡ [] }
    {
        Txns {
            list: Vec::new(alloc),
        }
    }

    /// Makes room for n more transactions. It changes nothing else.
    pub(crate) fn reserve(&mut self, transactions: usize) -> Result<(), AllocError>
        ensures { self.new ≡ self.old }
    {
        self.list.try_reserve(transactions)
    }

    /// Completes the open transaction at this index in the list by an event with its index.
    pub(crate) fn complete(&mut self, place: usize, index: u64, outcome: Outcome, op: OpView<'a>)
        requires place { place < length self.old }
        requires index { index < MAX_EVENTS }
        requires outcome { outcome_by op.kind ≡ Some outcome }
        ensures { self.new ≡ completed_at place index op.entry self.old }
    {
        self.list[place].complete(index, outcome, op);
    }

    pub fn as_slice(&self) -> &[Txn<'a>]
        ensures { result.now ≡ self.now }
    {
        &self.list
    }
}
