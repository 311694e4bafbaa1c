//! Dependencies by pieces of a history's keys.

ghost use Rattle.std.specs.Prelude.{◌≡◌, [], ◌∷◌, length, IfOk, OnOk};
ghost use Rattle.dep_edges.specs.Pieces.{ArePiecesOf, IsPieceOf, Sees, read_writer};
ghost use Rattle.dep_edges.specs.Tables.{IsNumber, version_at};

use crate::history::History;
use crate::nodes::is_failed;
use crate::possible::Possible;
use std::alloc::{AllocError, Global};
use std::marker::Model;

/// What one look at each version of some keys gives. It borrows nothing, so the keys of a history
/// can be parted and each part looked at by a thread of its own.
#[derive(Drop)]
pub struct PieceDeps {
    possible: Possible,
    /// The indexes of the transactions that wrote a version that was read, and didn't fail.
    writers: Vec<u32>,
}

impl Model for PieceDeps {
    ghost use Rattle.dep_edges.specs.Pieces.{Piece};

    ghost Value = { Piece };

    ghost view = { λ p. record { possible = p.possible; writers = p.writers.items } };
}

/// The index of the transaction that wrote the version, if the version was read and the transaction
/// didn't fail.
fn read_writer(history: &History<'_, '_>, number: usize) -> Option<u32>
    requires { IsNumber history.now.table number }
    ensures { result ≡ read_writer history.now.txns (version_at history.now.table number) }
{
    let writer = history.writer(number)?;
    if history.readers(number).is_empty() || is_failed(history.txn(writer.txn as usize)) {
        return None;
    }
    Some(writer.txn)
}

impl PieceDeps {
    /// The piece of no versions.
    fn new(alloc: Global) -> Self
        ensures { result.writers ≡ [] }
    {
        PieceDeps {
            possible: Possible::NONE,
            writers: Vec::new(alloc),
        }
    }

    pub(crate) fn possible(&self) -> Possible
        ensures { result ≡ self.now.possible }
    {
        self.possible
    }

    pub(crate) fn writers(&self) -> &[u32]
        ensures { result.now ≡ self.now.writers }
    {
        self.writers.as_slice()
    }

    /// Looks at one version more.
    fn see(&mut self, history: &History<'_, '_>, number: usize) -> Result<(), AllocError>
        requires { IsNumber history.now.table number }
        ensures { OnOk result (Sees history.now self.old self.new number) }
    {
        if history.readers(number).is_empty() {
            return Ok(());
        }
        self.possible = self.possible.or(Possible::by_reads_of(history, number));
        if let Some(place) = read_writer(history, number) {
            self.writers.push(place)?;
        }
        Ok(())
    }
}

/// The piece of all keys.
pub(crate) fn whole(alloc: Global, history: &History<'_, '_>) -> Result<PieceDeps, AllocError>
    ensures { IfOk result (λ piece. ArePiecesOf history.now (piece ∷ [])) }
{
    let mut piece = PieceDeps::new(alloc);
    for number in 0..history.versions() {
        piece.see(history, number)?;
    }
    Ok(piece)
}

/// The piece of the keys from one number up to but not including another one.
pub(crate) fn piece(
    alloc: Global,
    history: &History<'_, '_>,
    keys: &[usize],
    from: usize,
    to: usize,
) -> Result<PieceDeps, AllocError>
    requires { length keys.now ≡ length history.now.table.versions }
    ensures { IfOk result (IsPieceOf history.now keys.now from to) }
{
    let mut piece = PieceDeps::new(alloc);
    for number in 0..keys.len() {
        let key = keys[number];
        if from <= key && key < to {
            piece.see(history, number)?;
        }
    }
    Ok(piece)
}
