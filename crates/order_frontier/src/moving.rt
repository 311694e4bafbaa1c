//! What is kept of the ok transactions so far.

ghost use Rattle.std.specs.Prelude.{◌≡◌, ◌≤◌, ℕ, length, [], ◌∷◌, ◌++◌, Some, None, OnOk, OnErr, IfOk, not, ◌==◌, nat_lt, nat_eq, drop, if◌then◌else◌};
ghost use Rattle.process_map.specs.Values.{value_of};
ghost use Rattle.order_frontier.specs.Completions.{predecessor_of, count_passed, frontier_after};
ghost use Rattle.order_frontier.specs.Latest.{before_next};

use crate::types::{Completed, Predecessor, Predecessors};
use process_map::map::ProcessMap;
use smallvec::SmallVec;
use std::alloc::{AllocError, Global};

/// The ok transactions so far after whose completion no ok one was invoked, and the last one of
/// each process.
pub struct Moving {
    recent: SmallVec<Predecessor, 8>,
    last: ProcessMap<Predecessor>,
}

// By hand: a derived drop is inlined at every exit, which slows the prover (CONTRIBUTING.md).
impl Drop for Moving {
    fn drop(self) {
        let Moving { recent: _, last: _ } = self;
    }
}

/// How many members of the frontier, from the first on, completed before the invocation.
fn passed(frontier: &[Predecessor], invocation: u32) -> usize
    ensures count { result ≡ count_passed invocation frontier.now }
    ensures fits { result ≤ length frontier.now }
{
    for (count, earlier) in frontier.iter().enumerate() {
        if earlier.completion >= invocation {
            return count;
        }
    }
    frontier.len()
}

/// Removes the members of the frontier that completed before the invocation, which are the first
/// ones, and returns how many they were.
fn pass(frontier: &mut SmallVec<Predecessor, 8>, invocation: u32) -> usize
    ensures count { result ≡ count_passed invocation frontier.old.items }
    ensures rest { frontier.new.items ≡ drop result frontier.old.items }
    ensures capacity { frontier.new.capacity ≡ frontier.old.capacity }
{
    let passed = passed(frontier.as_slice(), invocation);
    for _ in 0..passed {
        frontier.remove(0);
    }
    passed
}

impl Moving {
    pub fn new(alloc: Global) -> Self
        ensures recent { result.recent.items ≡ [] }
        ensures last { (p : ℕ) → value_of result.last p ≡ None }
    {
        Moving {
            recent: SmallVec::new(alloc),
            last: ProcessMap::new(alloc),
        }
    }

    /// The ok transactions after whose completion no ok transaction was invoked, in the order of
    /// their completions.
    pub fn frontier(&self) -> &[Predecessor]
        ensures { result.now ≡ self.now.recent.items }
    {
        self.recent.as_slice()
    }

    /// The last ok transaction of a process, if there is one.
    pub fn last(&self, process: u64) -> Option<Predecessor>
        ensures { result ≡ value_of self.now.last process }
    {
        self.last.get(process)
    }

    /// The thinned predecessors of a transaction that is invoked now.
    pub fn before(
        &self,
        alloc: Global,
        process: u64,
        invocation: u64,
    ) -> Result<Predecessors, AllocError>
        ensures { IfOk result (λ u. u
            ≡ before_next self.now.recent.items self.now.last process invocation) }
    {
        let mut in_process = SmallVec::new(alloc);
        if let Some(last) = self.last(process) {
            in_process.push(last)?;
        }
        let in_realtime = SmallVec::from_slice(alloc, self.recent.as_slice())?;
        Ok(Predecessors::new(process, invocation, in_process, in_realtime))
    }

    /// Takes an ok transaction, and returns how many members of the frontier it passes: those that
    /// completed before its invocation.
    pub fn complete(&mut self, done: Completed) -> Result<usize, AllocError>
        ensures passed { IfOk result
            (λ count. count ≡ count_passed done.invocation self.old.recent.items) }
        ensures recent { OnOk result
            (self.new.recent.items ≡ frontier_after self.old.recent.items done) }
        ensures last { OnOk result
            ((p : ℕ) → value_of self.new.last p
            ≡ (if done.process == p then Some (predecessor_of done)
            else value_of self.old.last p)) }
        ensures recent_kept { OnErr result (self.new.recent.items ≡ self.old.recent.items) }
        ensures last_kept { OnErr result
            ((p : ℕ) → value_of self.new.last p ≡ value_of self.old.last p) }
    {
        self.recent.reserve(1)?;
        let process = u64::from(done.process);
        self.last.insert(process, done.predecessor())?;
        let passed = pass(&mut self.recent, done.invocation);
        self.recent.push_reserved(done.predecessor());
        Ok(passed)
    }
}
