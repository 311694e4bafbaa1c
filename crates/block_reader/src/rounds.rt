//! Reading a source in rounds.

ghost use Rattle.std.specs.Prelude.{◌≡◌, ◌≤◌, List, [], ◌++◌, length, IfOk, IfErr, OnOk};
ghost use Rattle.hist_types.specs.Operations.{Operation};
ghost use Rattle.block_reader.specs.Blocks.{operations_in};
ghost use Rattle.block_reader.specs.Rounds.{HasReadAll, IsNew, HasPassed, HasCome, IsRefused, IsFaultOf, IsCounted};

use crate::rest::{blocks_of_rest, fault_from};
use crate::round::{Consumer, Round, read_round};
use crate::starts::{helpers_of, last_line};
use crate::window::Window;
use hist_types::device::{Failed, Source};
use hist_types::types::Fault;
use op_block::block::Block;
use std::alloc::{AllocError, Global};
use std::sync::OnceLock;
use std::thread::Threads;

/// How many bytes a round has at least, if there are as many, where one thread reads them. They and
/// their blocks stay in its cache.
const ROUND_BYTES: usize = 1 << 17;

/// How many it has where several threads do, so that each of them has a few parts.
const WIDE_ROUND_BYTES: usize = 1 << 20;

/// In how many rounds a source is read at most, but for what is left then.
const MAX_ROUNDS: usize = 2048;

/// Why a source's operations weren't read.
#[derive(Clone, Copy, Debug)]
pub enum InputFault {
    /// The source failed.
    Device,
    /// The text is refused, or memory ran out.
    Text(Fault),
}

impl From<Failed> for InputFault {
    ghost use Rattle.std.specs.Prelude.{◌≡◌};
    ghost use Rattle.block_reader.specs.declared.rounds.InputFault.TheVariants.{Device};

    ghost from_gives = { λ _ given. given ≡ Device };

    fn from(_: Failed) -> InputFault {
        InputFault::Device
    }
}

impl From<Fault> for InputFault {
    ghost use Rattle.std.specs.Prelude.{◌≡◌};
    ghost use Rattle.block_reader.specs.declared.rounds.InputFault.TheVariants.{Text};

    ghost from_gives = { λ fault given. given ≡ Text fault };

    fn from(fault: Fault) -> InputFault {
        InputFault::Text(fault)
    }
}

impl From<AllocError> for InputFault {
    ghost use Rattle.std.specs.Prelude.{◌≡◌};
    ghost use Rattle.hist_types.specs.Refusals.{memory_fault};
    ghost use Rattle.block_reader.specs.declared.rounds.InputFault.TheVariants.{Text};

    ghost from_gives = { λ _ given. given ≡ Text memory_fault };

    fn from(_: AllocError) -> InputFault {
        InputFault::Text(Fault::memory())
    }
}

/// How many bytes the round has that begins after so many: a 256th part of them or more, so that
/// few rounds are enough for any text.
fn round_after(offset: usize, helpers: usize) -> usize {
    let least = if helpers == 0 {
        ROUND_BYTES
    } else {
        WIDE_ROUND_BYTES
    };
    least.max(offset / 256)
}

/// An empty cell for the blocks of each round, and of what is left behind the last.
pub fn cells_for(alloc: Global) -> Result<Vec<OnceLock<Vec<Block>>>, AllocError> {
    let mut cells = Vec::new(alloc);
    for _ in 0..MAX_ROUNDS + 1 {
        cells.push(OnceLock::new())?;
    }
    Ok(cells)
}

/// Fills the cell, which is empty.
fn fill(cell: &OnceLock<Vec<Block>>, blocks: Vec<Block>) -> Result<&[Block], AllocError>
    ensures { IfOk result (λ filled. filled.now ≡ blocks.items) }
{
    match cell.try_set(blocks) {
        Ok(token) => Ok(cell.value(&token)),
        Err(_) => Err(AllocError),
    }
}

/// A source as far as it was read.
#[derive(Drop)]
struct Reading {
    /// What is read of it and not read through.
    window: Window,
    /// How many bytes were read through before.
    offset: usize,
    /// Whether the source has ended.
    ended: bool,
}

impl Reading {
    fn new(alloc: Global) -> Self
        ensures { IsNew result }
    {
        Reading {
            window: Window::new(alloc),
            offset: 0,
            ended: false,
        }
    }

    /// Reads until there are so many bytes or the source ends. Behind its end nothing is asked of
    /// it.
    fn fill<S: Source>(&mut self, source: &mut S, wanted: usize) -> Result<(), InputFault>
        ensures ok { (began : S) (operations : List Operation)
            → HasCome S.Source began source.old self.old operations
            → OnOk result (HasCome S.Source began source.new self.new operations) }
        ensures err { IfErr result
            (λ fault. IsCounted fault (S.failures source.old) (S.failures source.new)) }
    {
        if !self.ended {
            self.ended = self.window.fill(source, wanted)?;
        }
        Ok(())
    }

    /// Passes the front of the window that ends there, which was read through.
    fn pass(&mut self, end: usize) -> Result<(), AllocError>
        requires { end ≤ length self.old.window.bytes }
        ensures { IfOk result (λ _. HasPassed end self.old self.new) }
    {
        self.offset = self.offset.checked_add(end).ok_or(AllocError)?;
        self.window.forget(end);
        Ok(())
    }

    /// Reads the source to its end and keeps none of it, and returns the fault, whose place was
    /// counted from the window's start, unless the source fails.
    fn refuse<S: Source>(&mut self, source: &mut S, fault: Fault) -> InputFault
        ensures { (began : S) (operations : List Operation)
            → HasCome S.Source began source.old self.old operations → IsRefused self.old fault
            → IsFaultOf S.Source began source.new result }
    {
        let refused = InputFault::Text(fault_from(self.offset, fault));
        if self.ended {
            return refused;
        }
        match self.window.read_out(source) {
            Ok(()) => refused,
            Err(failed) => failed,
        }
    }
}

/// Reads one round more into the cell, by this thread and up to so many others, while the consumer
/// takes the blocks of the round before, and returns the round's blocks and whether there may be
/// another. Where no line ends, or the lines don't read by themselves, it gives none; where they
/// have a fault that nothing behind them can change, the source is read to its end for nothing but
/// its own failures.
fn one_round<'a, R: Threads + Sync, S: Source, C: Consumer<'a>>(
    rt: &R,
    alloc: Global,
    helpers: usize,
    source: &mut S,
    reading: &mut Reading,
    cell: &'a OnceLock<Vec<Block>>,
    consumer: C,
    last: &'a [Block],
) -> Result<(C, &'a [Block], bool), InputFault>
    ensures ok { (began : S) (before : List Operation) → C.has_taken consumer before
        → HasCome S.Source began source.old reading.old (before ++ operations_in last.now)
        → IfOk result (λ given. (after : List Operation) × C.has_taken given.0 after
        × HasCome S.Source began source.new reading.new (after ++ operations_in given.1.now)) }
    ensures err { (began : S) (operations : List Operation)
        → HasCome S.Source began source.old reading.old operations
        → IfErr result (IsFaultOf S.Source began source.new) }
{
    reading.fill(source, round_after(reading.offset, helpers))?;
    let Some(end) = last_line(reading.window.as_slice()) else {
        return Ok((consumer, last, false));
    };
    let lines = &reading.window.as_slice()[..end];
    let (round, consumer) = read_round(rt, alloc, helpers, lines, consumer, last);
    match round {
        Round::Read(blocks) => {
            reading.pass(end)?;
            Ok((consumer, fill(cell, blocks)?, !reading.ended))
        }
        Round::Refused(fault) => Err(reading.refuse(source, fault)),
        Round::Unknown => Ok((consumer, &[], false)),
    }
}

/// Reads all that is left, into the cell.
fn the_rest<'a, S: Source>(
    alloc: Global,
    source: &mut S,
    reading: &mut Reading,
    cell: &'a OnceLock<Vec<Block>>,
) -> Result<&'a [Block], InputFault>
    ensures ok { (began : S) (before : List Operation)
        → HasCome S.Source began source.old reading.old before
        → IfOk result (λ rest. HasReadAll S.Source began source.new (before ++ operations_in rest.now)) }
    ensures err { (began : S) (operations : List Operation)
        → HasCome S.Source began source.old reading.old operations
        → IfErr result (IsFaultOf S.Source began source.new) }
{
    reading.fill(source, usize::MAX)?;
    if !reading.ended {
        // No memory holds so many bytes.
        return Err(InputFault::Text(Fault::memory()));
    }
    let blocks = blocks_of_rest(alloc, reading.window.as_slice(), reading.offset)?;
    Ok(fill(cell, blocks)?)
}

/// Reads a source to its end, by this thread and up to so many others, as many as there are workers
/// and processors, and hands the blocks of its operations to the consumer, which has them all in
/// the end. A fault of reading comes wherever it is in the text.
///
/// The lines of a round are read in parts, while the consumer takes what the round before gave, and
/// are then forgotten: the blocks have copies of what is wanted of them. Where they don't read by
/// themselves, since something is open at their end, all that is left of the text is read at once.
/// Behind a fault that more of the text can't change, nothing is kept.
pub fn read_source<'a, R: Threads + Sync, S: Source, C: Consumer<'a>>(
    rt: &R,
    alloc: Global,
    workers: usize,
    source: &mut S,
    cells: &'a [OnceLock<Vec<Block>>],
    consumer: C,
) -> Result<C, InputFault>
    requires { C.has_taken consumer [] }
    ensures ok { IfOk result (λ consumer. (operations : List Operation)
        × HasReadAll S.Source source.old source.new operations
        × C.has_taken consumer operations) }
    ensures err { IfErr result (IsFaultOf S.Source source.old source.new) }
{
    let Some((rest_cell, cells)) = cells.split_first() else {
        return Err(InputFault::Text(Fault::memory()));
    };
    let helpers = helpers_of(rt, workers);
    let mut reading = Reading::new(alloc);
    let mut consumer = consumer;
    let mut last: &'a [Block] = &[];
    for cell in cells {
        let (taken, blocks, goes_on) = one_round(
            rt,
            alloc,
            helpers,
            source,
            &mut reading,
            cell,
            consumer,
            last,
        )?;
        consumer = taken;
        last = blocks;
        if !goes_on {
            break;
        }
    }
    let rest = the_rest(alloc, source, &mut reading, rest_cell)?;
    Ok(consumer.take(last).take(rest))
}
