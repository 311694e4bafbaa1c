//! Steps of processes from one version of a key to another, kept while a run goes on.

ghost use Rattle.std.specs.Prelude.{◌≡◌, ◌<◌, [], length, true, false, IsTrue, IsFalse, IfOk, OnOk};
ghost use Rattle.hist_types.specs.Transactions.{is_ok};
ghost use Rattle.hist_types.specs.declared.types.KeyOrder.TheVariants.{Sequential};
ghost use Rattle.key_versions.specs.Kept.{AreKept};
ghost use Rattle.serial_points.specs.Steps.{AreNoSteps, AddsStep, AddSteps, StepsAdvance};

use crate::places::Places;
use hist_types::types::KeyOrder;
use key_versions::kept::KeptVersions;
use key_versions::process_steps::ProcessSteps;
use std::alloc::{AllocError, Global};
use std::hash::BuildHasher;
use txn_pairs::types::{Status, Txn};

/// How many transactions what processes saw has room for at first, where keys are sequential.
const ROOM: usize = 65_536;

/// Steps, by number of version.
pub(crate) struct StepLists {
    /// The versions from which a process went to this one.
    pub earlier: Places,
    /// The versions to which a process went from this one.
    pub later: Places,
    /// The steps that the last event added, of each the later version and the earlier one.
    pub fresh: Vec<(u32, u32)>,
}

// Written out, as what is derived is repeated wherever one is dropped.
impl Drop for StepLists {
    fn drop(self) {
        let StepLists {
            earlier: _,
            later: _,
            fresh: _,
        } = self;
    }
}

impl StepLists {
    /// Adds a step, if it isn't there.
    fn add(&mut self, step: (u32, u32)) -> Result<(), AllocError>
        ensures { OnOk result (AddsStep self.old self.new step) }
    {
        let (later, earlier) = step;
        if self.earlier.at(later).contains(&earlier) {
            return Ok(());
        }
        self.earlier.add(later, earlier)?;
        self.later.add(earlier, later)?;
        self.fresh.push(step)?;
        Ok(())
    }

    /// Adds steps, each of which is fresh if it wasn't there.
    fn add_all(&mut self, steps: &[(u32, u32)]) -> Result<(), AllocError>
        requires { self.old.fresh.items ≡ [] }
        ensures { OnOk result (AddSteps self.old self.new steps.now) }
    {
        for step in steps {
            self.add(*step)?;
        }
        Ok(())
    }
}

/// The steps of processes so far, where keys are sequential.
pub(crate) struct Steps {
    /// What each process saw last of each key.
    pub seen: ProcessSteps,
    pub lists: StepLists,
}

// Written out, as what is derived is repeated wherever one is dropped.
impl Drop for Steps {
    fn drop(self) {
        let Steps { seen: _, lists: _ } = self;
    }
}

/// Whether the transaction shows steps of its process.
fn shows_steps(keys: KeyOrder, txn: &Txn<'_>) -> bool
    ensures sequential { result ≡ true → keys ≡ Sequential }
    ensures ok { result ≡ true → IsTrue (is_ok txn.now) }
    ensures not { result ≡ false → keys ≡ Sequential → IsFalse (is_ok txn.now) }
{
    match keys {
        KeyOrder::Basic => false,
        KeyOrder::Sequential => txn.status() == Status::Ok,
    }
}

impl Steps {
    /// No process has seen a version.
    pub fn new(alloc: Global, keys: KeyOrder) -> Result<Self, AllocError>
        ensures { IfOk result AreNoSteps }
    {
        let room = match keys {
            KeyOrder::Basic => 0,
            KeyOrder::Sequential => ROOM,
        };
        Ok(Steps {
            seen: ProcessSteps::with_capacity(alloc, room)?,
            lists: StepLists {
                earlier: Places::new(alloc),
                later: Places::new(alloc),
                fresh: Vec::new(alloc),
            },
        })
    }

    /// The steps after an event of the transaction at the place. There are none if keys are basic.
    pub fn after<'a, S: BuildHasher + Copy>(
        self,
        txns: &[Txn<'a>],
        versions: &KeptVersions<'a, S>,
        place: usize,
    ) -> Result<Self, AllocError>
        requires kept { AreKept txns.now versions.now }
        requires place { place < length txns.now }
        ensures { IfOk result (λ next. versions.now.keys ≡ Sequential
            → StepsAdvance self next txns.now versions.now.accesses place) }
    {
        let txn = &txns[place];
        let Steps { seen, mut lists } = self;
        lists.fresh.clear();
        if !shows_steps(versions.keys(), txn) {
            return Ok(Steps { seen, lists });
        }
        let (seen, taken) = seen.take(
            txn.process(),
            versions.reads(place),
            versions.writes(place),
            versions.seen(place),
        )?;
        lists.add_all(taken.as_slice())?;
        Ok(Steps { seen, lists })
    }
}
