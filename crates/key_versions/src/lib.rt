//! The versions of keys that a history's transactions read and write.
#![tactic(auto)]

ghost use Rattle.std.specs.Prelude.{◌≡◌, IfOk, IfErr};
ghost use Rattle.hist_types.specs.Refusals.{memory_fault};
ghost use Rattle.history_laws.specs.Writers.{writes_of_all};
ghost use Rattle.key_versions.specs.Kept.{AreKept};
ghost use Rattle.key_versions.specs.Tables.{IsTableOf};

mod accessed;
mod accesses;
mod interleaving;
pub mod kept;
mod kept_accesses;
mod last_seen;
pub mod laws;
mod nils;
mod numbering;
mod pending;
pub mod process_steps;
mod push;
mod rows;
mod sequential;
mod steps;
pub mod table;
pub mod types;
mod write_numbers;

use crate::kept::KeptVersions;
use crate::numbering::{Numbering, numbering_of};
use crate::table::Versions;
use crate::write_numbers::WriteNumbers;
use hist_types::types::{Fault, KeyOrder};
use journal_core::written::Written;
use std::alloc::Global;
use std::hash::{BuildHasher, BuildHasherDefault, FoldHasher};
use txn_pairs::types::Txns;

/// The versions that the transactions name: the nil version of each key, what is written, and what
/// ok transactions read. What the reads of other transactions hold is not known, so it is left out.
/// They borrow the journal's blocks. No answer depends on the hasher.
///
/// A version's followers are the transactions known to install a later version of its key. Where
/// keys are basic, those are the transactions that read the version and install another one, and
/// after nil all that install a version of the key. Where keys are sequential, a process is taken
/// to see the versions of a key in their order: what it reads or writes in one ok transaction comes
/// before the different version that the next one reads first, or writes without reading the key.
/// Whoever installs the later version then follows the earlier one, even if the transaction is of
/// another process and read nothing. So a version may then have followers that didn't read it, and
/// several of them.
///
/// The time is linear in their micro-operations, except for the square of the length of one
/// transaction. The only error is out of memory.
pub fn versions<'a, S: BuildHasher + Copy>(
    alloc: Global,
    txns: &Txns<'a>,
    hasher: S,
    keys: KeyOrder,
) -> Result<Versions<'a>, Fault>
    ensures ok { IfOk result (IsTableOf keys txns.now) }
    ensures keys { IfOk result (λ versions. versions.keys ≡ keys) }
    ensures err { IfErr result (λ fault. fault ≡ memory_fault) }
{
    let numbering = Numbering::with_capacity(alloc, hasher, txns.as_slice().len())?;
    let numbers = WriteNumbers::Unknown;
    let kept = KeptVersions::of(alloc, numbering, txns.as_slice(), numbers, keys)?;
    let table = kept.into_table(alloc, txns)?;
    Ok(table)
}

/// What the transactions read and write, by the numbers that the journal gave to what it saw
/// written. Transactions come in the order of their invocations, and so did their writes, so each
/// write has the next of these numbers: its key and its value are not looked at.
///
/// The only error is out of memory.
pub fn kept_of_written<'a>(
    alloc: Global,
    txns: &Txns<'a>,
    written: Written<'a>,
    keys: KeyOrder,
) -> Result<KeptVersions<'a, BuildHasherDefault<FoldHasher>>, Fault>
    requires { written.items ≡ writes_of_all txns.now }
    ensures kept { IfOk result (AreKept txns.now) }
    ensures keys { IfOk result (λ kept. kept.keys ≡ keys) }
    ensures err { IfErr result (λ fault. fault ≡ memory_fault) }
{
    let numbering = numbering_of(alloc, written)?;
    let numbers = WriteNumbers::Consecutive(0);
    let kept = KeptVersions::of(alloc, numbering, txns.as_slice(), numbers, keys)?;
    Ok(kept)
}
