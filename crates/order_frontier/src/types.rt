//! The predecessors of each transaction.

ghost use mathlib.Core.List.{IsPrefix, IsSuffix};
ghost use Rattle.std.specs.Prelude.{◌≡◌, ◌==◌, ◌<◌, ◌≤◌, [], ◌∷◌, ◌++◌, length, take, map, All, OnOk, OnErr, IfOk};
ghost use Rattle.std.specs.Option.{option_to_list};
ghost use Rattle.order_frontier.specs.Latest.{before_next};
ghost use Rattle.order_frontier.specs.Predecessors.{before_at, last_realtime};
ghost use Rattle.order_frontier.specs.Ranges.{before_in, between, IsSpanOf, IsRangeOf, IsRowIn, IsRowOf, AreRowsOf};

use crate::moving::Moving;
use smallvec::SmallVec;
use std::alloc::{AllocError, Global};
use std::marker::Model;

/// An ok transaction that comes before another one, by the indexes of its invocation and its
/// completion.
#[derive(Clone, Copy, Debug, Default, PartialEq, Eq)]
pub struct Predecessor {
    pub invocation: u32,
    pub completion: u32,
}

/// What is kept of an ok transaction.
#[derive(Clone, Copy, Default, PartialEq, Eq, PartialOrd, Ord, Drop)]
pub(crate) struct Completed {
    pub completion: u32,
    pub invocation: u32,
    pub process: u32,
}

impl Completed {
    ghost use Rattle.order_frontier.specs.Completions.{predecessor_of};

    pub fn predecessor(self) -> Predecessor
        ensures { result ≡ predecessor_of self }
    {
        Predecessor {
            invocation: self.invocation,
            completion: self.completion,
        }
    }
}

/// A transaction's predecessors.
pub struct Predecessors {
    process: u64,
    invocation: u64,
    in_process: SmallVec<Predecessor, 1>,
    in_realtime: SmallVec<Predecessor, 4>,
}

// By hand: a derived drop is inlined at every exit, which slows the prover (CONTRIBUTING.md).
impl Drop for Predecessors {
    fn drop(self) {
        let Predecessors {
            process: _,
            invocation: _,
            in_process: _,
            in_realtime: _,
        } = self;
    }
}

impl Model for Predecessors {
    ghost use Rattle.order_frontier.specs.Predecessors.{Before};

    ghost Value = { Before };

    ghost view = { λ u. record {
      process = u.process;
      invocation = u.invocation;
      in_process = u.in_process.items;
      in_realtime = u.in_realtime.items;
    } };
}

impl Predecessors {
    pub(crate) fn new(
        process: u64,
        invocation: u64,
        in_process: SmallVec<Predecessor, 1>,
        in_realtime: SmallVec<Predecessor, 4>,
    ) -> Self
        ensures { result
            ≡ record {
              process = process;
              invocation = invocation;
              in_process = in_process.items;
              in_realtime = in_realtime.items;
            } }
    {
        Predecessors {
            process,
            invocation,
            in_process,
            in_realtime,
        }
    }

    /// The number of the transaction's process.
    pub fn process(&self) -> u64
        ensures { result ≡ self.now.process }
    {
        self.process
    }

    /// The index of the transaction's invocation.
    pub fn invocation(&self) -> u64
        ensures { result ≡ self.now.invocation }
    {
        self.invocation
    }

    /// The predecessors of the transaction in its own process.
    pub fn in_process(&self) -> &[Predecessor]
        ensures { result.now ≡ self.now.in_process }
    {
        self.in_process.as_slice()
    }

    /// The predecessors of the transaction in real time.
    pub fn in_realtime(&self) -> &[Predecessor]
        ensures { result.now ≡ self.now.in_realtime }
    {
        self.in_realtime.as_slice()
    }
}

/// A range of a list of predecessors.
#[derive(Clone, Copy, Drop)]
pub(crate) struct Span {
    pub start: u32,
    pub end: u32,
}

/// An index as a number of 32 bits. No memory holds more predecessors than there are such numbers.
fn number(place: usize) -> Result<u32, AllocError>
    ensures { IfOk result (λ n. n ≡ place) }
{
    u32::try_from(place).map_err(|_| AllocError)
}

/// An index or a process as a number of 32 bits. No journal has more of them than there are such
/// numbers.
pub(crate) fn short(number: u64) -> Result<u32, AllocError>
    ensures { IfOk result (λ n. n ≡ number) }
{
    u32::try_from(number).map_err(|_| AllocError)
}

impl Span {
    pub fn new(start: usize, end: usize) -> Result<Self, AllocError>
        ensures { IfOk result (λ span. span ≡ record { start = start; end = end }) }
    {
        Ok(Span {
            start: number(start)?,
            end: number(end)?,
        })
    }

    /// The predecessors of the range.
    fn of(self, list: &[Predecessor]) -> &[Predecessor]
        requires { IsSpanOf list.now self }
        ensures { result.now ≡ between list.now self }
    {
        &list[self.start as usize..self.end as usize]
    }
}

/// A transaction, and the ranges of its order's lists that come before it in its process and in
/// real time.
#[derive(Clone, Copy, Drop)]
pub(crate) struct Row {
    pub process: u32,
    pub invocation: u32,
    pub in_process: Span,
    pub in_realtime: Span,
}

/// Adds a predecessor to the list, if there is one, and returns the range of what was added.
fn push_last(last: Option<Predecessor>, list: &mut Vec<Predecessor>) -> Result<Span, AllocError>
    ensures kept { IsPrefix list.old.items list.new.items }
    ensures range { IfOk result (λ span. IsRangeOf list.new.items span (option_to_list last)) }
{
    let start = list.len();
    if let Some(last) = last {
        list.push(last)?;
    }
    Span::new(start, list.len())
}

/// Adds the predecessors to the list, except the first `shared` of them, which it ends with
/// already, and returns the range of all of them.
fn push_range(
    next: &[Predecessor],
    shared: usize,
    list: &mut Vec<Predecessor>,
) -> Result<Span, AllocError>
    requires fits { shared ≤ length next.now }
    requires shared { IsSuffix (take shared next.now) list.old.items }
    ensures kept { IsPrefix list.old.items list.new.items }
    ensures range { IfOk result (λ span. IsRangeOf list.new.items span next.now) }
    ensures end { OnOk result (IsSuffix next.now list.new.items) }
    ensures err { OnErr result (list.new.items ≡ list.old.items) }
{
    let start = list.len() - shared;
    let span = Span::new(start, start + next.len())?;
    list.extend_from_slice(&next[shared..])?;
    Ok(span)
}

/// The row of a transaction that is invoked now. Its predecessors go into the lists, except the
/// first `shared` of the frontier, which the list for real time ends with already.
fn row_of(
    process: u64,
    invocation: u64,
    moving: &Moving,
    shared: usize,
    in_process: &mut Vec<Predecessor>,
    in_realtime: &mut Vec<Predecessor>,
) -> Result<Row, AllocError>
    requires fits { shared ≤ length moving.now.recent.items }
    requires shared { IsSuffix (take shared moving.now.recent.items) in_realtime.old.items }
    ensures in_process { IsPrefix in_process.old.items in_process.new.items }
    ensures in_realtime { IsPrefix in_realtime.old.items in_realtime.new.items }
    ensures row { IfOk result (λ row. IsRowOf in_process.new.items in_realtime.new.items row
        (before_next moving.now.recent.items moving.now.last process invocation)) }
    ensures end { OnOk result (IsSuffix moving.now.recent.items in_realtime.new.items) }
    ensures err { OnErr result (in_realtime.new.items ≡ in_realtime.old.items) }
{
    Ok(Row {
        process: short(process)?,
        invocation: short(invocation)?,
        in_process: push_last(moving.last(process), in_process)?,
        in_realtime: push_range(moving.frontier(), shared, in_realtime)?,
    })
}

/// The predecessors of each transaction, in the order of the transactions. Transactions share one
/// list of predecessors in real time, since those of a thinned order are next to each other by
/// their completions.
pub struct Order {
    rows: Vec<Row>,
    in_process: Vec<Predecessor>,
    in_realtime: Vec<Predecessor>,
}

// By hand: a derived drop is inlined at every exit, which slows the prover (CONTRIBUTING.md).
impl Drop for Order {
    fn drop(self) {
        let Order {
            rows: _,
            in_process: _,
            in_realtime: _,
        } = self;
    }
}

impl Model for Order {
    ghost use Rattle.std.specs.Prelude.{List, map};
    ghost use Rattle.order_frontier.specs.Predecessors.{Before};
    ghost use Rattle.order_frontier.specs.Ranges.{before_in, AreRowsOf};

    ghost Value = { List Before };

    ghost view = { λ order. map
        (before_in order.in_process.items order.in_realtime.items) order.rows.items };

    ghost invariant = { λ order. AreRowsOf
        order.in_process.items order.in_realtime.items order.rows.items };
}

impl Order {
    /// The order of these rows, which are ranges of the lists.
    pub(crate) fn of_ranges(
        rows: Vec<Row>,
        in_process: Vec<Predecessor>,
        in_realtime: Vec<Predecessor>,
    ) -> Self
        requires { AreRowsOf in_process.items in_realtime.items rows.items }
        ensures { result ≡ map (before_in in_process.items in_realtime.items) rows.items }
    {
        Order {
            rows,
            in_process,
            in_realtime,
        }
    }

    /// The order of no transactions.
    pub(crate) fn new(alloc: Global) -> Self
        ensures { result ≡ [] }
    {
        Order::of_ranges(Vec::new(alloc), Vec::new(alloc), Vec::new(alloc))
    }

    /// The order of no transactions, with room for `transactions` of them, `ok` of which are ok.
    pub(crate) fn with_capacity(
        alloc: Global,
        transactions: usize,
        ok: usize,
    ) -> Result<Self, AllocError>
        ensures { IfOk result (λ order. order ≡ []) }
    {
        Ok(Order::of_ranges(
            Vec::with_capacity(alloc, transactions)?,
            Vec::with_capacity(alloc, transactions)?,
            Vec::with_capacity(alloc, ok)?,
        ))
    }

    /// Adds a transaction that is invoked now, with its predecessors. The first `shared` of the
    /// frontier are the last predecessors of the transaction before it too. Out of memory leaves
    /// the order as it was.
    pub(crate) fn push(
        &mut self,
        process: u64,
        invocation: u64,
        moving: &Moving,
        shared: usize,
    ) -> Result<(), AllocError>
        requires fits { shared ≤ length moving.now.recent.items }
        requires shared { IsSuffix (take shared moving.now.recent.items) (last_realtime self.old) }
        ensures ok { OnOk result
            (self.new
            ≡ self.old
            ++ before_next moving.now.recent.items moving.now.last process invocation ∷ []) }
        ensures err { OnErr result (self.new ≡ self.old) }
    {
        self.rows.try_reserve(1)?;
        let row = row_of(
            process,
            invocation,
            moving,
            shared,
            &mut self.in_process,
            &mut self.in_realtime,
        )?;
        self.rows.push_reserved(row);
        Ok(())
    }

    /// How many transactions there are.
    pub fn len(&self) -> usize
        ensures { result ≡ length self.now }
    {
        self.rows.len()
    }

    /// Whether there is no transaction.
    pub fn is_empty(&self) -> bool
        ensures { result ≡ (length self.now == 0) }
    {
        self.len() == 0
    }

    /// The predecessors in its own process of the transaction at an index.
    pub fn in_process(&self, place: usize) -> &[Predecessor]
        requires { place < length self.now }
        ensures { result.now ≡ (before_at self.now place).in_process }
    {
        self.rows[place].in_process.of(&self.in_process)
    }

    /// The predecessors in real time of the transaction at an index.
    pub fn in_realtime(&self, place: usize) -> &[Predecessor]
        requires { place < length self.now }
        ensures { result.now ≡ (before_at self.now place).in_realtime }
    {
        self.rows[place].in_realtime.of(&self.in_realtime)
    }
}
