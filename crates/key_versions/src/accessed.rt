//! What one transaction reads and writes.

ghost use Rattle.std.specs.Prelude.{◌≡◌, [], OnOk};
ghost use Rattle.key_versions.specs.Rows.{with_access, with_read};

use crate::pending::Access;
use crate::push::push;
use crate::rows::has_key;
use std::alloc::{AllocError, Global};

/// What a transaction reads externally, if it is ok, and what it writes.
pub(crate) struct Accessed {
    pub reads: Vec<Access>,
    pub writes: Vec<Access>,
    /// What each micro-operation of an ok transaction reads or writes, where keys are sequential.
    pub seen: Vec<Access>,
}

// By hand: a derived drop is inlined at every exit, which slows the prover (CONTRIBUTING.md).
impl Drop for Accessed {
    fn drop(self) {
        let Accessed {
            reads: _,
            writes: _,
            seen: _,
        } = self;
    }
}

impl Accessed {
    /// A transaction that reads and writes nothing.
    pub fn new(alloc: Global) -> Self
        ensures reads { result.reads.items ≡ [] }
        ensures writes { result.writes.items ≡ [] }
        ensures seen { result.seen.items ≡ [] }
    {
        Accessed {
            reads: Vec::new(alloc),
            writes: Vec::new(alloc),
            seen: Vec::new(alloc),
        }
    }

    pub fn clear(&mut self)
        ensures reads { self.new.reads.items ≡ [] }
        ensures writes { self.new.writes.items ≡ [] }
        ensures seen { self.new.seen.items ≡ [] }
    {
        self.reads.clear();
        self.writes.clear();
        self.seen.clear();
    }

    /// Adds the access of a micro-operation. A read of a key that the transaction wrote before
    /// isn't external.
    #[inline(always)]
    pub fn add(
        &mut self,
        access: Access,
        is_write: bool,
        keeps_seen: bool,
    ) -> Result<(), AllocError>
        ensures reads { OnOk result
            (self.new.reads.items
            ≡ with_read is_write access self.old.writes.items self.old.reads.items) }
        ensures writes { OnOk result
            (self.new.writes.items ≡ with_access is_write access self.old.writes.items) }
        ensures seen { OnOk result
            (self.new.seen.items ≡ with_access keeps_seen access self.old.seen.items) }
    {
        if keeps_seen {
            push(&mut self.seen, access)?;
        }
        if is_write {
            push(&mut self.writes, access)?;
        } else if !has_key(self.writes.as_slice(), access.nil) {
            push(&mut self.reads, access)?;
        }
        Ok(())
    }
}
