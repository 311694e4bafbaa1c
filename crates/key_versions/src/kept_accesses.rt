//! What is kept of each transaction: what it reads and writes, by the numbers of versions.

ghost use Rattle.std.specs.Prelude.{◌≡◌, ◌<◌, ◌≤◌, ◌++◌, ◌∷◌, [], length, map, set, slice_get, Some, IfOk, OnOk};
ghost use Rattle.key_versions.specs.TxnAccesses.{accesses_of};
ghost use Rattle.key_versions.specs.Spans.{writes_start, seen_start, end_of, AreAppended};

use crate::accessed::Accessed;
use crate::pending::Access;
use crate::push::{push, push_all};
use crate::rows::number_of;
use std::alloc::{AllocError, Global};
use std::marker::Model;

/// Where the accesses of a transaction are, and how many: its reads, after them its writes, and
/// then what it sees.
#[derive(Clone, Copy, Debug, Default, PartialEq, Eq)]
pub(crate) struct KeptSpan {
    start: u32,
    reads: u16,
    writes: u16,
    seen: u16,
}

const _: () = prove!(size_of::<KeptSpan>() <= 12);

impl KeptSpan {
    /// Where its writes start, and its reads end.
    fn writes_start(self) -> usize
        ensures { result ≡ writes_start self }
    {
        self.start as usize + usize::from(self.reads)
    }

    /// Where what it sees starts, and its writes end.
    fn seen_start(self) -> usize
        ensures { result ≡ seen_start self }
    {
        self.writes_start() + usize::from(self.writes)
    }

    fn end(self) -> usize
        ensures { result ≡ end_of self }
    {
        self.seen_start() + usize::from(self.seen)
    }
}

/// How many accesses there are. More than 65,535, which no transaction has, are out of memory.
fn count_of(accesses: &[Access]) -> Result<u16, AllocError>
    ensures { IfOk result (λ count. count ≡ length accesses.now) }
{
    u16::try_from(accesses.len()).map_err(|_| AllocError)
}

/// The accesses of each transaction, by its index in the history.
pub(crate) struct KeptAccesses {
    /// The accesses of all transactions. When a transaction gets others, its old ones stay, unused.
    accesses: Vec<Access>,
    /// Where the accesses of each transaction are, by its index.
    spans: Vec<KeptSpan>,
}

// By hand: a derived drop is inlined at every exit, which slows the prover (CONTRIBUTING.md).
impl Drop for KeptAccesses {
    fn drop(self) {
        let KeptAccesses {
            accesses: _,
            spans: _,
        } = self;
    }
}

impl Model for KeptAccesses {
    ghost use Rattle.std.specs.Prelude.{List, map, length, All};
    ghost use Rattle.key_versions.specs.TxnAccesses.{TxnAccesses};
    ghost use Rattle.key_versions.specs.Spans.{IsKeptSpan, kept_at};

    ghost Value = { List TxnAccesses };

    ghost view = { λ a. map (kept_at a.accesses.items) a.spans.items };

    ghost invariant = { λ a. All (IsKeptSpan (length a.accesses.items)) a.spans.items };
}

/// Appends the accesses of a transaction.
// Out of line, its result is written in pieces and read back at once as a whole, which stalls.
#[inline(always)]
fn append(accesses: &mut Vec<Access>, accessed: &Accessed) -> Result<KeptSpan, AllocError>
    ensures ok { IfOk result (AreAppended accesses.old.items accesses.new.items
        accessed.now.reads.items accessed.now.writes.items accessed.now.seen.items) }
    ensures kept { length accesses.old.items ≤ length accesses.new.items }
{
    let start = number_of(accesses.len())?;
    push_all(accesses, accessed.reads.as_slice())?;
    push_all(accesses, accessed.writes.as_slice())?;
    push_all(accesses, accessed.seen.as_slice())?;
    Ok(KeptSpan {
        start,
        reads: count_of(accessed.reads.as_slice())?,
        writes: count_of(accessed.writes.as_slice())?,
        seen: count_of(accessed.seen.as_slice())?,
    })
}

impl KeptAccesses {
    /// The accesses of no transactions.
    pub fn new(alloc: Global) -> Self
        ensures { result ≡ [] }
    {
        KeptAccesses {
            accesses: Vec::new(alloc),
            spans: Vec::new(alloc),
        }
    }

    /// The accesses of no transactions, with room for n of four micro-operations each.
    pub fn with_capacity(alloc: Global, transactions: usize) -> Result<Self, AllocError>
        ensures { IfOk result (λ accesses. accesses ≡ []) }
    {
        Ok(KeptAccesses {
            accesses: Vec::with_capacity(alloc, transactions.saturating_mul(4))?,
            spans: Vec::with_capacity(alloc, transactions)?,
        })
    }

    /// How many transactions there are.
    pub fn len(&self) -> usize
        ensures { result ≡ length self.now }
    {
        self.spans.len()
    }

    /// Adds the accesses of the next transaction.
    pub fn push(&mut self, accessed: &Accessed) -> Result<(), AllocError>
        ensures { OnOk result (self.new ≡ self.old ++ accesses_of accessed.now ∷ []) }
    {
        let span = append(&mut self.accesses, accessed)?;
        push(&mut self.spans, span)?;
        Ok(())
    }

    /// Replaces the accesses of the transaction at this index.
    pub fn set(&mut self, place: usize, accessed: &Accessed) -> Result<(), AllocError>
        requires { place < length self.old }
        ensures { OnOk result (self.new ≡ set self.old place (accesses_of accessed.now)) }
    {
        self.spans[place] = append(&mut self.accesses, accessed)?;
        Ok(())
    }

    pub fn reads(&self, place: usize) -> &[Access]
        requires { place < length self.now }
        ensures { slice_get (map (λ a. a.reads) self.now) place ≡ Some result.now }
    {
        let span = self.spans[place];
        &self.accesses[span.start as usize..span.writes_start()]
    }

    pub fn writes(&self, place: usize) -> &[Access]
        requires { place < length self.now }
        ensures { slice_get (map (λ a. a.writes) self.now) place ≡ Some result.now }
    {
        let span = self.spans[place];
        &self.accesses[span.writes_start()..span.seen_start()]
    }

    pub fn seen(&self, place: usize) -> &[Access]
        requires { place < length self.now }
        ensures { slice_get (map (λ a. a.seen) self.now) place ≡ Some result.now }
    {
        let span = self.spans[place];
        &self.accesses[span.seen_start()..span.end()]
    }
}
