//! Which kinds of bad reads there may be, by one look at each version.

ghost use Rattle.std.specs.Prelude.{◌≡◌, ◌||◌};
ghost use Rattle.dep_edges.specs.Pieces.{possible_in};
ghost use Rattle.dep_edges.specs.Possible.{RulesOut, either};
ghost use Rattle.dep_edges.specs.Tables.{IsNumber, version_at};

use crate::history::History;
use crate::nodes::is_failed;
use crate::pieces::PieceDeps;

/// Which kinds of bad reads there may be. Where one is ruled out, no read has to be looked at for
/// it.
#[derive(Clone, Copy)]
pub struct Possible {
    pub aborted: bool,
    pub intermediate: bool,
    pub stray: bool,
}

impl Possible {
    pub const NONE: Possible = Possible {
        aborted: false,
        intermediate: false,
        stray: false,
    };

    /// Which kinds of bad reads the reads of the version may be.
    pub fn by_reads_of(history: &History<'_, '_>, number: usize) -> Possible
        requires { IsNumber history.now.table number }
        ensures { RulesOut history.now.txns (version_at history.now.table number) result }
    {
        match history.writer(number) {
            Some(writer) => Possible {
                aborted: is_failed(history.txn(writer.txn as usize)),
                intermediate: writer.over,
                stray: false,
            },
            None => Possible {
                stray: history.is_stray(number),
                ..Possible::NONE
            },
        }
    }

    pub fn or(self, other: Possible) -> Possible
        ensures { result ≡ either self other }
    {
        Possible {
            aborted: self.aborted || other.aborted,
            intermediate: self.intermediate || other.intermediate,
            stray: self.stray || other.stray,
        }
    }
}

/// Which kinds of bad reads there may be in any of the pieces.
pub fn possible_in(pieces: &[PieceDeps]) -> Possible
    ensures { result ≡ possible_in pieces.now }
{
    pieces
        .iter()
        .fold(Possible::NONE, |found, piece| found.or(piece.possible()))
}
