//! Kinds of operations, levels, phenomena, refusals and faults.

ghost use Rattle.std.specs.Prelude.{◌≡◌, ℕ, ◌≤◌, ◌↔◌, Some, IsSome, IfSome};
ghost use Rattle.hist_types.specs.Refusals.{number_of, name_of};

use crate::limits::MAX_PROCESS;
use std::alloc::{AllocError, AllocFailed};
use std::fmt;
use std::marker::Model;
use thiserror::Error;

/// The kind of an operation: a process invokes a transaction, or learns how one ended.
#[derive(Clone, Copy, Debug, PartialEq, Eq)]
pub enum OpKind {
    Invoke,
    Ok,
    Fail,
    Info,
}

/// How an operation ended, as its client saw it.
#[derive(Clone, Copy, Debug, PartialEq, Eq)]
pub enum Outcome {
    /// The transaction happened.
    Ok,
    /// The transaction did not happen.
    Fail,
    /// Nobody knows whether the transaction happened.
    Info,
}

/// Which order edges a cycle may use: none, those within a process, or those of real time. Levels
/// are in this order.
#[derive(Clone, Copy, Debug, PartialEq, Eq, PartialOrd, Ord)]
pub enum Level {
    Plain,
    Process,
    Realtime,
}

/// A phenomenon of Adya's that is shown by a cycle.
#[derive(Clone, Copy, Debug, PartialEq, Eq)]
pub enum Phenomenon {
    G0,
    G1c,
    GSingle,
    G2Item,
}

/// What is known of the order in which clients see the versions of a key.
#[derive(Clone, Copy, Debug, PartialEq, Eq)]
pub enum KeyOrder {
    /// Nothing but what each transaction shows by itself.
    Basic,
    /// Each register is sequentially consistent for each client, so what a process saw of a key
    /// comes before what it sees next.
    Sequential,
}

/// What a report says of strict serializability.
#[derive(Clone, Copy, Debug, PartialEq, Eq)]
pub enum Strict {
    /// A phenomenon is reported, so no strict serial explanation of the history exists.
    Refuted,
    /// No phenomenon is reported. That says nothing: the history may have an explanation or none.
    Open,
}

/// Why a call was refused. Each has a number and a name that never change.
#[derive(Clone, Copy, Debug, PartialEq, Eq, Error)]
pub enum Refusal {
    #[error("the process has an open invocation")]
    Busy,
    #[error("the process is used again after an info")]
    Retired,
    #[error("a value is written to a key a second time")]
    Rewritten,
    #[error("a completion of a process that has no open invocation")]
    Idle,
    #[error("the completion's micro-operations are not those of its invocation")]
    Mismatch,
    #[error("every cell of the row is filled")]
    Full,
    #[error("the journal has as many events as it may have")]
    TooManyEvents,
    #[error("the range does not lie within the events")]
    BadRange,
    #[error("out of memory")]
    Memory,
    #[error("a thread could not be started")]
    NoThread,
    #[error("invalid UTF-8")]
    BadUtf8,
    #[error("a string without its closing quote")]
    UnclosedString,
    #[error("a closer that fits no open collection")]
    StrayCloser,
    #[error("more collections are open than may be")]
    TooDeep,
    #[error("the text ends in an open collection")]
    Unclosed,
    #[error("an operation with an odd number of forms")]
    OddMap,
    #[error("a tag or `#_` with no form after it")]
    DanglingTag,
    #[error("something other than a map in an operation's place")]
    NotAMap,
    #[error("`:process`, `:type` or a needed `:value` is missing")]
    MissingField,
    #[error("duplicate `:process`, `:type` or `:value`")]
    DuplicateField,
    #[error("`:type` is none of `:invoke`, `:ok`, `:fail` and `:info`")]
    BadType,
    #[error("the number of the process is out of range")]
    BadProcess,
    #[error("a value that is not a register transaction")]
    NotTxn,
    #[error("a key or a value that is not an atom")]
    BadAtom,
    #[error("nil is written")]
    NilWritten,
    #[error("an operation with too many bytes")]
    TooLong,
    #[error("a transaction with too many micro-operations")]
    TooManyMicroOps,
    #[error("no room for one more operation in a block")]
    BlockFull,
    #[error("an import without an operation")]
    EmptyImport,
}

impl Refusal {
    /// The refusal's number, as it is printed.
    pub const fn number(self) -> u32
        ensures { result ≡ number_of self }
    {
        match self {
            Refusal::Busy => 1,
            Refusal::Retired => 2,
            Refusal::Rewritten => 3,
            Refusal::Idle => 5,
            Refusal::Mismatch => 6,
            Refusal::Full => 7,
            Refusal::TooManyEvents => 8,
            Refusal::BadRange => 9,
            Refusal::Memory => 10,
            Refusal::NoThread => 11,
            Refusal::BadUtf8 => 20,
            Refusal::UnclosedString => 21,
            Refusal::StrayCloser => 22,
            Refusal::TooDeep => 23,
            Refusal::Unclosed => 24,
            Refusal::OddMap => 25,
            Refusal::DanglingTag => 26,
            Refusal::NotAMap => 27,
            Refusal::MissingField => 28,
            Refusal::DuplicateField => 29,
            Refusal::BadType => 30,
            Refusal::BadProcess => 31,
            Refusal::NotTxn => 32,
            Refusal::BadAtom => 33,
            Refusal::NilWritten => 34,
            Refusal::TooLong => 35,
            Refusal::TooManyMicroOps => 36,
            Refusal::BlockFull => 37,
            Refusal::EmptyImport => 38,
        }
    }

    /// The refusal's name, as it is printed.
    pub const fn name(self) -> &'static str
        ensures { result.now ≡ name_of self }
    {
        match self {
            Refusal::Busy => "Busy",
            Refusal::Retired => "Retired",
            Refusal::Rewritten => "Rewritten",
            Refusal::Idle => "Idle",
            Refusal::Mismatch => "Mismatch",
            Refusal::Full => "Full",
            Refusal::TooManyEvents => "TooManyEvents",
            Refusal::BadRange => "BadRange",
            Refusal::Memory => "Memory",
            Refusal::NoThread => "NoThread",
            Refusal::BadUtf8 => "BadUtf8",
            Refusal::UnclosedString => "UnclosedString",
            Refusal::StrayCloser => "StrayCloser",
            Refusal::TooDeep => "TooDeep",
            Refusal::Unclosed => "Unclosed",
            Refusal::OddMap => "OddMap",
            Refusal::DanglingTag => "DanglingTag",
            Refusal::NotAMap => "NotAMap",
            Refusal::MissingField => "MissingField",
            Refusal::DuplicateField => "DuplicateField",
            Refusal::BadType => "BadType",
            Refusal::BadProcess => "BadProcess",
            Refusal::NotTxn => "NotTxn",
            Refusal::BadAtom => "BadAtom",
            Refusal::NilWritten => "NilWritten",
            Refusal::TooLong => "TooLong",
            Refusal::TooManyMicroOps => "TooManyMicroOps",
            Refusal::BlockFull => "BlockFull",
            Refusal::EmptyImport => "EmptyImport",
        }
    }
}

/// Where a refusal's cause is.
#[derive(Clone, Copy, Debug, PartialEq, Eq)]
pub enum At {
    /// An offset in the text that was read, in bytes.
    Byte(usize),
    /// The index that the refused operation would have had among the journal's events.
    Event(u64),
    Nowhere,
}

/// A refusal and its place.
#[derive(Clone, Copy, Debug, PartialEq, Eq)]
pub struct Fault {
    pub refusal: Refusal,
    pub at: At,
}

impl Fault {
    ghost use Rattle.std.specs.Prelude.{◌≡◌};
    ghost use Rattle.hist_types.specs.Refusals.{memory_fault};

    /// The fault of a call that is out of memory. It has no place.
    pub const fn memory() -> Fault
        ensures { result ≡ memory_fault }
    {
        Fault {
            refusal: Refusal::Memory,
            at: At::Nowhere,
        }
    }
}

impl From<AllocError> for Fault {
    ghost use Rattle.std.specs.Prelude.{◌≡◌};
    ghost use Rattle.hist_types.specs.Refusals.{memory_fault};

    ghost from_gives = { λ _ fault. fault ≡ memory_fault };

    fn from(_: AllocError) -> Fault {
        Fault::memory()
    }
}

impl<T: Drop> From<AllocFailed<T>> for Fault {
    ghost use Rattle.std.specs.Prelude.{◌≡◌};
    ghost use Rattle.hist_types.specs.Refusals.{memory_fault};

    ghost from_gives = { λ _ fault. fault ≡ memory_fault };

    fn from(_: AllocFailed<T>) -> Fault {
        Fault::memory()
    }
}

impl fmt::Display for Fault {
    ghost use Rattle.std.specs.Prelude.{Some};
    ghost use Rattle.hist_types.specs.Texts.{fault_text};

    ghost output = { λ fault. Some (fault_text fault) };

    /// The line of the refusal, without its line end: `refused 24 Unclosed byte 35`.
    fn fmt<W: fmt::Write>(&self, f: &mut fmt::Formatter<W>) -> fmt::Result {
        write!(
            f,
            "refused {} {}",
            self.refusal.number(),
            self.refusal.name()
        )?;
        match self.at {
            At::Byte(offset) => write!(f, " byte {offset}"),
            At::Event(index) => write!(f, " event {index}"),
            At::Nowhere => Ok(()),
        }
    }
}

/// The number of a process of a test run: 0 to 2,147,483,647.
#[derive(Clone, Copy, Debug, PartialEq, Eq, Hash)]
pub struct Process {
    number: u32,
}

impl Model for Process {
    ghost use Rattle.std.specs.Prelude.{ℕ, ◌≤◌};
    ghost use Rattle.hist_types.specs.declared.limits.TheConstants.{MAX_PROCESS};

    ghost Value = { ℕ };

    ghost view = { λ p. p.number };

    ghost invariant = { λ p. p.number ≤ MAX_PROCESS };

    ghost inverse = { λ n. record { number = n } };
}

impl Process {
    /// The process with this number, if the number is in range.
    pub fn new(number: u64) -> Option<Process>
        ensures range { IsSome result ↔ (number ≤ MAX_PROCESS) }
        ensures number { IfSome result (λ p. p ≡ number) }
    {
        if number <= MAX_PROCESS {
            Some(Process {
                number: number as u32,
            })
        } else {
            None
        }
    }

    pub fn number(self) -> u64
        ensures number { result ≡ self }
        ensures range { result ≤ MAX_PROCESS }
    {
        u64::from(self.number)
    }
}
