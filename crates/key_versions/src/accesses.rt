//! What transactions read and install, by the numbers of versions.

ghost use Rattle.std.specs.Prelude.{◌≡◌, ◌<◌, ◌≤◌, ◌++◌, [], map, length, IfOk, OnOk, Some, slice_get};
ghost use Rattle.key_versions.specs.Rows.{Accessed, numbers_of, with_accessed};

use crate::pending::Access;
use crate::push::push;
use crate::rows::number_of;
use std::alloc::{AllocError, Global};
use std::marker::Model;

/// Where the numbers of a transaction are: those of its reads, and after them those of its
/// installs.
#[derive(Clone, Copy, Debug, Default, PartialEq, Eq)]
pub(crate) struct Span {
    reads: u32,
    installs: u32,
    end: u32,
}

/// What each transaction reads and installs, by its index in the history.
pub(crate) struct Accesses {
    /// The numbers of all transactions.
    numbers: Vec<u32>,
    /// Where the numbers of each transaction are, by its index.
    spans: Vec<Span>,
}

// By hand: a derived drop is inlined at every exit, which slows the prover (CONTRIBUTING.md).
impl Drop for Accesses {
    fn drop(self) {
        let Accesses {
            numbers: _,
            spans: _,
        } = self;
    }
}

impl Model for Accesses {
    ghost use Rattle.std.specs.Prelude.{List, map, length, All};
    ghost use Rattle.key_versions.specs.Rows.{Accessed};
    ghost use Rattle.key_versions.specs.Spans.{IsSpan, accessed_at};

    ghost Value = { List Accessed };

    ghost view = { λ a. map (accessed_at a.numbers.items) a.spans.items };

    ghost invariant = { λ a. All (IsSpan (length a.numbers.items)) a.spans.items };
}

/// Appends the numbers of the versions.
fn append(numbers: &mut Vec<u32>, accesses: &[Access]) -> Result<(), AllocError>
    ensures ok { OnOk result (numbers.new.items ≡ numbers.old.items ++ numbers_of accesses.now) }
    ensures kept { length numbers.old.items ≤ length numbers.new.items }
{
    for access in accesses {
        push(numbers, access.version)?;
    }
    Ok(())
}

impl Accesses {
    /// The accesses of no transactions, with room for n.
    pub fn with_capacity(alloc: Global, transactions: usize) -> Result<Self, AllocError>
        ensures { IfOk result (λ accesses. accesses ≡ []) }
    {
        Ok(Accesses {
            numbers: Vec::with_capacity(alloc, transactions.saturating_mul(4))?,
            spans: Vec::with_capacity(alloc, transactions)?,
        })
    }

    /// How many transactions there are.
    pub fn len(&self) -> usize
        ensures { result ≡ length self.now }
    {
        self.spans.len()
    }

    /// Adds the accesses of the next transaction.
    pub fn push(&mut self, reads: &[Access], installs: &[Access]) -> Result<(), AllocError>
        ensures { OnOk result (self.new ≡ with_accessed self.old reads.now installs.now) }
    {
        let start = number_of(self.numbers.len())?;
        append(&mut self.numbers, reads)?;
        let middle = number_of(self.numbers.len())?;
        append(&mut self.numbers, installs)?;
        let end = number_of(self.numbers.len())?;
        push(
            &mut self.spans,
            Span {
                reads: start,
                installs: middle,
                end,
            },
        )?;
        Ok(())
    }

    pub fn reads(&self, place: usize) -> &[u32]
        requires { place < length self.now }
        ensures { slice_get (map (λ a. a.reads) self.now) place ≡ Some result.now }
    {
        let span = self.spans[place];
        &self.numbers[span.reads as usize..span.installs as usize]
    }

    pub fn installs(&self, place: usize) -> &[u32]
        requires { place < length self.now }
        ensures { slice_get (map (λ a. a.installs) self.now) place ≡ Some result.now }
    {
        let span = self.spans[place];
        &self.numbers[span.installs as usize..span.end as usize]
    }
}
