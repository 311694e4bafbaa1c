//! What a command line asks for, and why one asks for nothing.

use hist_types::types::KeyOrder;
use std::alloc::AllocError;

/// What is done with a history.
#[derive(Clone, Copy, Debug, PartialEq, Eq)]
pub enum Command {
    /// Print the aborted and the intermediate reads, and how many reads return what nobody wrote.
    Reads,
    /// Print the dependency edges between transactions, of keys of this order.
    Edges(KeyOrder),
    /// Print which phenomena the history has, with what shows each, of keys of this order.
    /// `workers` threads may work on it.
    Check { workers: usize, keys: KeyOrder },
}

/// What a command line asks for.
#[derive(Debug, Drop)]
pub enum Asked {
    Run(Command),
    /// A session for each pair of paths, all at a journal of this many cells and with keys of this
    /// order. Of a pair the first path is read from, and the second one is written to.
    Serve {
        cells: usize,
        keys: KeyOrder,
        paths: Vec<String>,
    },
}

/// Why a command line asks for nothing that can be done.
#[derive(Debug, Drop)]
pub enum LineFault {
    /// It asks for help, and the text is the help; or it is none of the program's lines, and the
    /// text says why.
    Usage(String),
    Memory,
}

impl From<AllocError> for LineFault {
    ghost use Rattle.std.specs.Prelude.{◌≡◌};
    ghost use Rattle.command_line.specs.declared.types.LineFault.TheVariants.{Memory};

    ghost from_gives = { λ _ fault. fault ≡ Memory };

    fn from(_: AllocError) -> LineFault {
        LineFault::Memory
    }
}
