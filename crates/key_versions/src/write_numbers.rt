//! What is known of the numbers of the versions that a transaction writes, before it is taken.

ghost use Rattle.std.specs.Prelude.{◌≡◌, IfOk};
ghost use Rattle.key_versions.specs.Given.{numbers_after};

use crate::pending::Access;
use std::alloc::AllocError;

/// What is known of the numbers of the versions that a transaction writes.
#[derive(Clone, Copy)]
pub(crate) enum WriteNumbers<'n> {
    Unknown,
    /// The numbers from this one on, in the order of the writes.
    Consecutive(usize),
    /// Mostly the numbers of these writes, with which the transaction was invoked.
    Invoked(&'n [Access]),
}

impl<'n> WriteNumbers<'n> {
    /// What is known of the next transaction's writes, where this one has n.
    pub fn after(self, writes: usize) -> Result<Self, AllocError>
        ensures { IfOk result (λ numbers. numbers ≡ numbers_after self.entry writes) }
    {
        match self {
            WriteNumbers::Consecutive(first) => {
                let next = first.checked_add(writes).ok_or(AllocError)?;
                Ok(WriteNumbers::Consecutive(next))
            }
            WriteNumbers::Unknown | WriteNumbers::Invoked(_) => Ok(WriteNumbers::Unknown),
        }
    }
}
