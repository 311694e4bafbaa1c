//! Proposes the order of a replay: transactions that wait to be put. Nothing is claimed of them,
//! only that they don't wait for ever.

ghost use Rattle.std.specs.Prelude.{◌≡◌, ◌<◌, length, true, IfOk, IfSome};
ghost use Rattle.clean_order.specs.Waiting.{steps_left};

use std::alloc::{AllocError, Global};

/// The places of transactions that wait, each one for the next. None waits twice.
#[derive(Drop)]
pub(crate) struct Waiting {
    places: Vec<u32>,
    /// By place, whether the transaction waits or has waited.
    begun: Vec<bool>,
}

impl Waiting {
    /// None of n transactions waits.
    pub fn new(alloc: Global, txns: usize) -> Result<Self, AllocError> {
        Ok(Waiting {
            places: Vec::new(alloc),
            begun: vec![in alloc; false; txns]?,
        })
    }

    /// Who waits for none of the others.
    pub fn last(&self) -> Option<u32>
        ensures { IfSome result (λ _. 0 < length self.now.places.items) }
    {
        Some(*self.places.last()?)
    }

    /// The last one waits for the one at the place. False if that one waits already.
    pub fn push(&mut self, place: u32) -> Result<bool, AllocError>
        ensures { IfOk result (λ pushed. pushed ≡ true
            → steps_left self.new < steps_left self.old) }
    {
        let index = place as usize;
        if index >= self.begun.len() || self.begun[index] {
            return Ok(false);
        }
        self.begun[index] = true;
        self.places.push(place)?;
        Ok(true)
    }

    /// The last one waits no more.
    pub fn pop(&mut self)
        requires { 0 < length self.old.places.items }
        ensures { steps_left self.new < steps_left self.old }
    {
        self.places.pop();
    }
}
