//! Writes through cells of which another seat fills the next one first. A line is one of
//!
//!     SEAT OPERATIONS
//!     first OTHER OPERATIONS    before the next write, the other seat writes this

ghost use Rattle.std.specs.Prelude.{◌≡◌};

use crate::hashers::Counting;
use crate::stopped::Stopped;
use block_reader::one_block::block_of_text;
use cell_row::known::Known;
use cell_row::row::{Fill, Row};
use hist_types::types::{Fault, KeyOrder};
use live_journal::cells::Cells;
use live_journal::seen::{Seen, write_through};
use op_block::block::Block;
use op_block::stamp::Stamp;
use std::alloc::{AllocError, Global};
use std::cell::Cell;
use std::io;
use std::sync::atomic::AtomicU64;

/// Cells of which another seat fills the next one just before a call does, if it has a block.
#[derive(Drop)]
struct Raced<'r> {
    alloc: Global,
    row: &'r Row<Block>,
    /// The block of another seat.
    first: Cell<Option<Box<Block>>>,
}

impl Raced<'_> {
    /// Fills the next cell with the block of the other seat.
    fn intrude<'a>(&'a self, known: &Known<'a, Block>)
        requires { known.now.row ≡ self.now.row.now }
    {
        let Some(block) = self.first.take() else {
            return;
        };
        if let Ok(mut theirs) = self.row.again(self.alloc, known) {
            let _filled = self.row.fill(&mut theirs, || Ok(block));
        }
    }
}

impl Cells for Raced<'_> {
    ghost names = { λ cells. cells.row.now };

    fn look<'a>(&'a self, known: &mut Known<'a, Block>) -> Option<&'a Block> {
        self.row.look(known)
    }

    fn fill<'a, F: FnOnce() -> Result<Box<Block>, AllocError>>(
        &'a self,
        known: &mut Known<'a, Block>,
        build: F,
    ) -> Fill<'a, Block>
    where
        F: Drop,
    {
        self.intrude(known);
        self.row.fill(known, build)
    }

    fn block<'a>(&'a self, known: &Known<'a, Block>, index: usize) -> &'a Block {
        self.row.block(known, index)
    }
}

/// What a seat has seen that writes through these cells.
struct Racer<'j, 'r, 'c> {
    alloc: Global,
    cells: &'j Raced<'r>,
    seen: Seen<'j, Counting<'c>>,
    ghost row: { seen.seat.row ≡ cells.now.row.now },
}

// By hand: a derived drop is inlined at every exit, which slows the prover (CONTRIBUTING.md).
impl Drop for Racer<'_, '_, '_> {
    fn drop(self) {
        let Racer {
            alloc: _,
            cells: _,
            seen: _,
        } = self;
    }
}

impl<'j, 'r, 'c> Racer<'j, 'r, 'c> {
    fn new(
        alloc: Global,
        cells: &'j Raced<'r>,
        number: u32,
        hasher: Counting<'c>,
    ) -> Result<Self, Fault> {
        let known = cells.row.known(alloc)?;
        Ok(Racer {
            alloc,
            cells,
            seen: Seen::new(alloc, number, hasher, KeyOrder::Basic, known),
        })
    }

    /// Writes the operations of a text.
    fn write(&mut self, text: &str) -> Result<u64, Fault> {
        let block = block_of_text(self.alloc, text.as_bytes(), self.seen.next_stamp())?;
        write_through(self.cells, &mut self.seen, &block)
    }
}

/// A line: the number of a seat, and operations.
fn seat_and_text(line: &str) -> Option<(u32, &str)> {
    let (number, text) = line.split_once(' ')?;
    Some((number.parse::<u32>().ok()?, text))
}

/// Before the next write, a seat that writes nothing else fills the next cell with the operations
/// that a line says.
fn come_first(alloc: Global, cells: &Raced<'_>, line: &str) -> Result<(), Stopped> {
    let (seat, text) = seat_and_text(line).ok_or(Stopped::BadLine)?;
    let block = block_of_text(alloc, text.as_bytes(), Stamp { seat, call: 0 })?;
    cells.first.set(Some(Box::new(alloc, block)?));
    Ok(())
}

/// Has a seat write the operations that a line says.
fn write<R: Print>(rt: &R, racers: &mut [Racer<'_, '_, '_>], line: &str) -> Result<(), Stopped> {
    let (number, text) = seat_and_text(line).ok_or(Stopped::BadLine)?;
    let Some(racer) = racers.get_mut(number as usize) else {
        return Err(Stopped::BadLine);
    };
    match racer.write(text) {
        Ok(index) => println!(rt; "event {index}")?,
        Err(fault) => println!(rt; "{fault}")?,
    }
    Ok(())
}

/// The seats with numbers below this one.
fn racers_of<'j, 'r, 'c>(
    alloc: Global,
    cells: &'j Raced<'r>,
    hasher: Counting<'c>,
    seats: u32,
) -> Result<Vec<Racer<'j, 'r, 'c>>, Fault> {
    let mut racers = Vec::new(alloc);
    for number in 0..seats {
        racers.push(Racer::new(alloc, cells, number, hasher)?)?;
    }
    Ok(racers)
}

/// Seats write what the lines of standard input say, in this many cells, of which others fill some
/// first.
pub fn run<R: Input + Print>(
    rt: &R,
    alloc: Global,
    built: &AtomicU64,
    cells: usize,
    seats: u32,
) -> Result<(), Stopped> {
    let row = Row::new(alloc, cells)?;
    let raced = Raced {
        alloc,
        row: &row,
        first: Cell::new(None),
    };
    let mut racers = racers_of(alloc, &raced, Counting::new(built), seats)?;
    for line in rt.lines(alloc) {
        let line = line?;
        match line.strip_prefix("first ") {
            Some(rest) => come_first(alloc, &raced, rest)?,
            None => write(rt, &mut racers, &line)?,
        }
    }
    Ok(())
}
