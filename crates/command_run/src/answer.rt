//! Answers, and how a run ends.

ghost use Rattle.std.specs.Prelude.{◌≡◌};
ghost use Rattle.hist_types.specs.Texts.{refusal_line};
ghost use Rattle.command_run.specs.Statuses.{code_of, status_by, lack_line};

use hist_types::types::{At, Fault, Refusal};
use std::alloc::AllocError;

/// How a run ended.
#[derive(Clone, Copy, Debug, PartialEq, Eq)]
pub enum Status {
    NoPhenomenon,
    SomePhenomenon,
    /// The input was refused, or the command line.
    Refused,
    DeviceFault,
    /// The program lacked memory, or a thread.
    Lacking,
}

impl Status {
    /// The number that the process ends with.
    pub fn code(self) -> u8
        ensures { result ≡ code_of self }
    {
        match self {
            Status::NoPhenomenon => 0,
            Status::SomePhenomenon => 1,
            Status::Refused => 2,
            Status::DeviceFault => 3,
            Status::Lacking => 4,
        }
    }
}

/// What the program lacked, so that there is no answer.
#[derive(Clone, Copy, Debug, PartialEq, Eq)]
pub enum Lack {
    Memory,
    /// A thread, which couldn't be started.
    Thread,
}

impl From<AllocError> for Lack {
    ghost use Rattle.std.specs.Prelude.{◌≡◌};
    ghost use Rattle.command_run.specs.declared.answer.Lack.TheVariants.{Memory};

    ghost from_gives = { λ _ lack. lack ≡ Memory };

    fn from(_: AllocError) -> Lack {
        Lack::Memory
    }
}

impl Lack {
    /// The refusal that is printed of what the program lacked.
    pub fn fault(self) -> Fault
        ensures { refusal_line result ≡ lack_line self }
    {
        let refusal = match self {
            Lack::Memory => Refusal::Memory,
            Lack::Thread => Refusal::NoThread,
        };
        Fault {
            refusal,
            at: At::Nowhere,
        }
    }
}

/// A status, and what is printed with it.
#[derive(Drop)]
pub struct Answer {
    pub status: Status,
    pub printed: Vec<u8>,
}

/// The status of a report, by whether it names a phenomenon.
pub fn status_by(named: bool) -> Status
    ensures { result ≡ status_by named }
{
    if named {
        Status::SomePhenomenon
    } else {
        Status::NoPhenomenon
    }
}
