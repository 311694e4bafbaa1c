//! The steps of processes while their run goes on.

ghost use Rattle.std.specs.Prelude.{◌≡◌, ◌++◌, ℕ, None, IfOk};
ghost use Rattle.key_versions.specs.LastSeen.{last_seen};
ghost use Rattle.key_versions.specs.Steps.{seen_after, firsts, steps_to, AreOfSameKeys};

use crate::last_seen::LastSeen;
use crate::pending::Access;
use crate::steps::Steps;
use std::alloc::{AllocError, Global};
use std::marker::Model;

/// The version of each key that each process saw last, kept from one transaction to the next.
#[derive(Drop)]
pub struct ProcessSteps {
    alloc: Global,
    last: LastSeen,
}

impl Model for ProcessSteps {
    ghost use Rattle.key_versions.specs.LastSeen.{Linked};

    ghost Value = { Linked };

    ghost view = { λ s. s.last };
}

impl ProcessSteps {
    /// The steps of no processes, with room for as much as n transactions mostly see. What comes
    /// beyond that makes the table grow.
    pub fn with_capacity(alloc: Global, transactions: usize) -> Result<Self, AllocError>
        ensures { IfOk result (λ steps. (process nil : ℕ) → last_seen steps process nil ≡ None) }
    {
        Ok(ProcessSteps {
            alloc,
            last: LastSeen::with_capacity(alloc, transactions)?,
        })
    }

    /// Takes the next ok transaction of a process, by what it reads, writes and sees. It returns
    /// the steps of the process, each by the number of its later version and that of its earlier
    /// one. The only error is out of memory.
    pub fn take(
        self,
        process: u64,
        reads: &[Access],
        writes: &[Access],
        seen: &[Access],
    ) -> Result<(Self, Vec<(u32, u32)>), AllocError>
        requires { AreOfSameKeys seen.now (reads.now ++ writes.now) }
        ensures steps { IfOk result (λ taken.
            taken.1.items ≡ steps_to (last_seen self process) (firsts reads.now writes.now)) }
        ensures last { IfOk result (λ taken. (one nil : ℕ) → last_seen taken.0 one nil
            ≡ seen_after process seen.now one nil (last_seen self one nil)) }
    {
        let ProcessSteps { alloc, last } = self;
        let mut steps = Steps {
            last,
            taken: Vec::new(alloc),
        };
        steps.take_ok(process, reads, writes, seen)?;
        let Steps { last, taken } = steps;
        Ok((ProcessSteps { alloc, last }, taken))
    }
}
