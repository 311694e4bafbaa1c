//! What transactions read and write, kept by number while their run goes on.

ghost use Rattle.std.specs.Prelude.{◌≡◌, ◌<◌, ◌++◌, ◌∷◌, [], List, length, map, set, slice_get, Some, IfOk, OnOk};
ghost use Rattle.atom_index.specs.Numbers.{AreNumbered};
ghost use Rattle.hist_types.specs.Journal.{writes_of};
ghost use Rattle.hist_types.specs.Transactions.{Transaction, Version, version_eq};
ghost use Rattle.hist_types.specs.declared.types.KeyOrder.TheVariants.{Basic, Sequential};
ghost use Rattle.history_laws.specs.Writers.{writes_of_all};
ghost use Rattle.key_versions.specs.Given.{AreNamed, AreKeptBeside, HaveNumbers, IsTableBeside};
ghost use Rattle.key_versions.specs.Kept.{AreKept, KeepNumbers, StayBeside};
ghost use Rattle.key_versions.specs.LastSeen.{last_seen};
ghost use Rattle.key_versions.specs.Numbering.{versions_of};
ghost use Rattle.key_versions.specs.Stepped.{AreStepsOf};
ghost use Rattle.key_versions.specs.Tables.{IsTableOf};
ghost use Rattle.key_versions.specs.Views.{table_by};
ghost use Rattle.txn_pairs.specs.Completions.{Completes};

use crate::accessed::Accessed;
use crate::kept_accesses::KeptAccesses;
use crate::numbering::Numbering;
pub use crate::pending::Access;
use crate::rows::Rows;
use crate::sequential::follow_steps;
use crate::steps::Steps;
use crate::table::Versions;
use crate::write_numbers::WriteNumbers;
use hist_types::types::KeyOrder;
use std::alloc::{AllocError, Global};
use std::hash::BuildHasher;
use std::marker::Model;
use txn_pairs::types::{Status, Txn, Txns};

/// What the transactions of a run read and write, by the numbers of versions. A transaction is
/// added when it is invoked, and updated when it completes. At any time a table of versions can be
/// made: in linear time, and without looking at a key or a value.
///
/// It borrows the journal's blocks. No answer depends on the hasher. It can't be used after a call
/// that ran out of memory.
pub struct KeptVersions<'a, S: BuildHasher> {
    keys: KeyOrder,
    numbering: Numbering<'a, S>,
    accesses: KeptAccesses,
    /// A buffer for the accesses of one transaction.
    accessed: Accessed,
}

// By hand: a derived drop is inlined at every exit, which slows the prover (CONTRIBUTING.md).
impl<S: BuildHasher + Drop> Drop for KeptVersions<'_, S> {
    fn drop(self) {
        let KeptVersions {
            keys: _,
            numbering: _,
            accesses: _,
            accessed: _,
        } = self;
    }
}

impl<'a, S: BuildHasher> Model for KeptVersions<'a, S> {
    ghost use Rattle.key_versions.specs.Kept.{KeptVersions as Kept};
    ghost use Rattle.key_versions.specs.Numbering.{versions_of};

    ghost Value = { Kept };

    ghost view = { λ k. record {
      keys = k.keys;
      versions = versions_of k.numbering;
      accesses = k.accesses;
    } };
}

impl<'a, S: BuildHasher + Copy> KeptVersions<'a, S> {
    /// The versions of no transactions.
    pub fn new(alloc: Global, hasher: S, keys: KeyOrder) -> Self
        ensures kept { AreKept [] result }
        ensures keys { result.keys ≡ keys }
    {
        KeptVersions {
            keys,
            numbering: Numbering::new(alloc, hasher),
            accesses: KeptAccesses::new(alloc),
            accessed: Accessed::new(alloc),
        }
    }

    /// The versions of no transactions, with room for n. Some versions may have numbers already.
    fn with_capacity(
        alloc: Global,
        numbering: Numbering<'a, S>,
        transactions: usize,
        keys: KeyOrder,
    ) -> Result<Self, AllocError>
        requires { AreNumbered version_eq (versions_of numbering) }
        ensures kept { IfOk result (λ kept. AreKeptBeside kept.versions [] kept) }
        ensures versions { IfOk result (λ kept. kept.versions ≡ versions_of numbering.entry) }
        ensures keys { IfOk result (λ kept. kept.keys ≡ keys) }
    {
        Ok(KeptVersions {
            keys,
            numbering,
            accesses: KeptAccesses::with_capacity(alloc, transactions)?,
            accessed: Accessed::new(alloc),
        })
    }

    /// Takes the next transaction of a history, where some versions had numbers before, and returns
    /// how many writes it has.
    fn take(&mut self, txn: &Txn<'a>, numbers: WriteNumbers<'_>) -> Result<usize, AllocError>
        requires kept { (given : List Version) × (ts : List Transaction)
            × AreKeptBeside given ts self.old }
        requires numbers { HaveNumbers numbers self.old.versions (writes_of txn.now.mops) }
        ensures kept { (given : List Version) (ts : List Transaction)
            → AreKeptBeside given ts self.old
            → OnOk result (AreKeptBeside given (ts ++ txn.now ∷ []) self.new) }
        ensures writes { IfOk result (λ writes. writes ≡ length (writes_of txn.now.mops)) }
        ensures numbers { OnOk result (KeepNumbers self.old.versions self.new.versions) }
        ensures keys { self.new.keys ≡ self.old.keys }
    {
        self.numbering
            .take(txn, self.keys, numbers, &mut self.accessed)?;
        self.accesses.push(&self.accessed)?;
        Ok(self.accessed.writes.len())
    }

    /// Takes all transactions of a history, one after the other.
    fn take_all(&mut self, txns: &[Txn<'a>], numbers: WriteNumbers<'_>) -> Result<(), AllocError>
        requires kept { AreKeptBeside self.old.versions [] self.old }
        requires numbers { HaveNumbers numbers self.old.versions (writes_of_all txns.now) }
        ensures kept { OnOk result (AreKeptBeside self.old.versions txns.now self.new) }
        ensures keys { self.new.keys ≡ self.old.keys }
    {
        let mut next = numbers;
        for txn in txns {
            let writes = self.take(txn, next)?;
            next = next.after(writes)?;
        }
        Ok(())
    }

    /// What the transactions of a history read and write. They name the versions that have numbers
    /// already.
    pub(crate) fn of(
        alloc: Global,
        numbering: Numbering<'a, S>,
        txns: &[Txn<'a>],
        numbers: WriteNumbers<'_>,
        keys: KeyOrder,
    ) -> Result<Self, AllocError>
        requires distinct { AreNumbered version_eq (versions_of numbering) }
        requires named { AreNamed txns.now (versions_of numbering) }
        requires numbers { HaveNumbers numbers (versions_of numbering) (writes_of_all txns.now) }
        ensures kept { IfOk result (AreKept txns.now) }
        ensures keys { IfOk result (λ kept. kept.keys ≡ keys) }
    {
        let mut kept = KeptVersions::with_capacity(alloc, numbering, txns.len(), keys)?;
        kept.take_all(txns, numbers)?;
        Ok(kept)
    }

    /// Adds a transaction, which was invoked after all others.
    pub fn begin(&mut self, txn: &Txn<'a>) -> Result<(), AllocError>
        requires { (ts : List Transaction) × AreKept ts self.old }
        ensures kept { (ts : List Transaction)
            → AreKept ts self.old → OnOk result (AreKept (ts ++ txn.now ∷ []) self.new) }
        ensures others { OnOk result
            (StayBeside (length self.old.accesses) self.old.accesses self.new.accesses) }
        ensures numbers { OnOk result (KeepNumbers self.old.versions self.new.versions) }
        ensures keys { self.new.keys ≡ self.old.keys }
    {
        self.numbering
            .take(txn, self.keys, WriteNumbers::Unknown, &mut self.accessed)?;
        self.accesses.push(&self.accessed)?;
        Ok(())
    }

    /// Updates the transaction at this index in the history, which is now completed. A fail or an
    /// info says nothing of what was read.
    pub fn complete(&mut self, place: usize, txn: &Txn<'a>) -> Result<(), AllocError>
        requires { (ts : List Transaction) × AreKept ts self.old × (place < length ts) }
        ensures kept { (ts : List Transaction) (t : Transaction)
            → AreKept ts self.old → slice_get ts place ≡ Some t → Completes t txn.now
            → OnOk result (AreKept (set ts place txn.now) self.new) }
        ensures others { OnOk result (StayBeside place self.old.accesses self.new.accesses) }
        ensures numbers { OnOk result (KeepNumbers self.old.versions self.new.versions) }
        ensures keys { self.new.keys ≡ self.old.keys }
    {
        if txn.status() == Status::Ok {
            let numbers = WriteNumbers::Invoked(self.accesses.writes(place));
            self.numbering
                .take(txn, self.keys, numbers, &mut self.accessed)?;
            self.accesses.set(place, &self.accessed)?;
        }
        Ok(())
    }

    /// How the versions of each key are ordered.
    pub fn keys(&self) -> KeyOrder
        ensures { result ≡ self.now.keys }
    {
        self.keys
    }

    /// How many versions there are.
    pub fn versions(&self) -> usize
        ensures { result ≡ length self.now.versions }
    {
        self.numbering.len()
    }

    /// What the transaction at this index reads externally, if it is ok.
    pub fn reads(&self, place: usize) -> &[Access]
        requires { place < length self.now.accesses }
        ensures { slice_get (map (λ a. a.reads) self.now.accesses) place ≡ Some result.now }
    {
        self.accesses.reads(place)
    }

    /// What the transaction at this index writes.
    pub fn writes(&self, place: usize) -> &[Access]
        requires { place < length self.now.accesses }
        ensures { slice_get (map (λ a. a.writes) self.now.accesses) place ≡ Some result.now }
    {
        self.accesses.writes(place)
    }

    /// What the micro-operations of the transaction at this index read and write, if it is ok and
    /// keys are sequential.
    pub fn seen(&self, place: usize) -> &[Access]
        requires { place < length self.now.accesses }
        ensures { slice_get (map (λ a. a.seen) self.now.accesses) place ≡ Some result.now }
    {
        self.accesses.seen(place)
    }

    /// What is known of each version, apart from the steps of processes.
    fn rows(&self, alloc: Global) -> Result<Rows, AllocError>
        requires { (ts : List Transaction) × AreKept ts self.now }
        ensures { (ts : List Transaction) → AreKept ts self.now → IfOk result
            (λ r. IsTableBeside self.now.versions ts
            (table_by self.now.versions r.rows r.accesses)) }
    {
        let versions = self.numbering.len();
        let mut rows = Rows::with_capacity(alloc, self.accesses.len(), versions)?;
        for place in 0..self.accesses.len() {
            rows.take(
                versions,
                self.accesses.reads(place),
                self.accesses.writes(place),
            )?;
        }
        Ok(rows)
    }

    /// The steps of the transactions' processes.
    fn steps(&self, alloc: Global, txns: &[Txn<'a>]) -> Result<Steps, AllocError>
        requires kept { AreKept txns.now self.now }
        requires keys { self.now.keys ≡ Sequential }
        ensures { IfOk result (λ steps.
            AreStepsOf self.now.versions txns.now (last_seen steps.last) steps.taken.items) }
    {
        let mut steps = Steps::with_capacity(alloc, txns.len())?;
        for (place, txn) in txns.iter().enumerate() {
            steps.take(
                txn,
                self.accesses.reads(place),
                self.accesses.writes(place),
                self.accesses.seen(place),
            )?;
        }
        Ok(steps)
    }

    /// What is known of each version.
    fn known(&self, alloc: Global, txns: &[Txn<'a>]) -> Result<Rows, AllocError>
        requires { AreKept txns.now self.now }
        ensures { IfOk result (λ r. IsTableOf self.now.keys txns.now
            (table_by self.now.versions r.rows r.accesses)) }
    {
        let mut rows = self.rows(alloc)?;
        match self.keys {
            KeyOrder::Basic => Ok(rows),
            KeyOrder::Sequential => {
                let steps = self.steps(alloc, txns)?;
                follow_steps(alloc, &mut rows, steps, self.numbering.len())?;
                Ok(rows)
            }
        }
    }

    /// The table of the transactions, as `versions` makes it.
    pub fn finish(&self, alloc: Global, txns: &Txns<'a>) -> Result<Versions<'a>, AllocError>
        requires { AreKept txns.now self.now }
        ensures ok { IfOk result (IsTableOf self.now.keys txns.now) }
        ensures keys { IfOk result (λ versions. versions.keys ≡ self.now.keys) }
    {
        let rows = self.known(alloc, txns.as_slice())?;
        let numbered = self.numbering.numbered(alloc)?;
        let known = rows.rows.finish(alloc)?;
        Ok(Versions::new(self.keys, numbered, known, rows.accesses))
    }

    /// The table of the transactions, where no more are added: nothing is copied.
    pub fn into_table(self, alloc: Global, txns: &Txns<'a>) -> Result<Versions<'a>, AllocError>
        requires { AreKept txns.now self }
        ensures ok { IfOk result (IsTableOf self.entry.keys txns.now) }
        ensures keys { IfOk result (λ versions. versions.keys ≡ self.entry.keys) }
    {
        let rows = self.known(alloc, txns.as_slice())?;
        let KeptVersions {
            keys,
            numbering,
            accesses: _,
            accessed: _,
        } = self;
        let numbered = numbering.finish();
        let known = rows.rows.finish(alloc)?;
        Ok(Versions::new(keys, numbered, known, rows.accesses))
    }
}
