//! The moving frontier, event by event.

ghost use Rattle.std.specs.Prelude.{◌≡◌, ◌<◌, [], OnOk, IfOk, OnErr, IfErr};
ghost use Rattle.hist_types.specs.Refusals.{memory_fault};
ghost use Rattle.hist_types.specs.declared.limits.TheConstants.{MAX_EVENTS};
ghost use Rattle.hist_types.specs.declared.types.OpKind.TheVariants as kinds;
ghost use Rattle.order_frontier.specs.Summaries.{IsSummaryOf, IsNext, IsOfSame, AreThinnedNext, AreFrontierOf};

use crate::moving::Moving;
use crate::types::{Completed, Predecessor, Predecessors};
use hist_types::types::{Fault, Process};
use std::alloc::Global;
use std::collections::HashMap;
use std::marker::Model;

/// What the order of later transactions needs of the events so far: how many these were, what each
/// process has open, each process's last ok transaction, and the ok transactions after whose
/// completion no ok transaction was both invoked and completed. It takes memory for these alone,
/// however many events there were.
#[derive(Drop)]
pub struct Frontier {
    events: u64,
    /// The invocation that each process has open.
    opened: HashMap<u64, u32>,
    moving: Moving,
}

impl Model for Frontier {
    ghost use Rattle.order_frontier.specs.Summaries.{Summary};

    ghost Value = { Summary };

    ghost view = { λ f. record {
      events = f.events;
      opened = f.opened.entries;
      recent = f.moving.recent.items;
      last = f.moving.last;
    } };
}

impl Frontier {
    /// A frontier before the first event.
    pub fn new(alloc: Global) -> Self
        ensures { IsSummaryOf [] result }
    {
        Frontier {
            events: 0,
            opened: HashMap::new(alloc),
            moving: Moving::new(alloc),
        }
    }

    /// How many events there were.
    pub fn events(&self) -> u64
        ensures { result ≡ self.now.events }
    {
        self.events
    }

    /// The ok transactions after whose completion no ok transaction was both invoked and completed,
    /// each once, in the order of their completions. There are no more of them than transactions
    /// were ever open at once.
    pub fn as_slice(&self) -> &[Predecessor]
        ensures { AreFrontierOf self.now result.now }
    {
        self.moving.frontier()
    }

    /// Takes the next event, an invocation of the process, and returns the predecessors of its
    /// transaction in thinned order. After a call that is out of memory the frontier is still one
    /// of the same events.
    pub fn invoked(&mut self, alloc: Global, process: Process) -> Result<Predecessors, Fault>
        requires { self.old.events < MAX_EVENTS }
        ensures next { OnOk result (IsNext kinds.Invoke process self.old self.new) }
        ensures process { IfOk result (λ before. before.process ≡ process) }
        ensures invocation { IfOk result (λ before. before.invocation ≡ self.old.events) }
        ensures thinned { IfOk result (λ before. AreThinnedNext self.old process before) }
        ensures memory { IfErr result (λ fault. fault ≡ memory_fault) }
        ensures err { OnErr result (IsOfSame self.old self.new) }
    {
        let index = self.events;
        let before = self.moving.before(alloc, process.number(), index)?;
        self.opened.insert(process.number(), index as u32)?;
        self.events += 1;
        Ok(before)
    }

    /// Takes the next event, an ok of the process. After a call that is out of memory the frontier
    /// is still one of the same events.
    pub fn completed_ok(&mut self, process: Process) -> Result<(), Fault>
        requires { self.old.events < MAX_EVENTS }
        ensures next { OnOk result (IsNext kinds.Ok process self.old self.new) }
        ensures memory { IfErr result (λ fault. fault ≡ memory_fault) }
        ensures err { OnErr result (IsOfSame self.old self.new) }
    {
        let number = process.number();
        if let Some(invocation) = self.opened.get(&number).copied() {
            self.moving.complete(Completed {
                completion: self.events as u32,
                invocation,
                process: number as u32,
            })?;
            self.opened.remove(&number);
        }
        self.events += 1;
        Ok(())
    }

    /// Takes the next event, a fail or an info of the process.
    pub fn completed_other(&mut self, process: Process)
        requires { self.old.events < MAX_EVENTS }
        ensures fail { IsNext kinds.Fail process self.old self.new }
        ensures info { IsNext kinds.Info process self.old self.new }
    {
        self.opened.remove(&process.number());
        self.events += 1;
    }
}
