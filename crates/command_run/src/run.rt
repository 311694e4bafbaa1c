//! The run of a command, from a source's bytes to a sink's.

ghost use Rattle.std.specs.Prelude.{◌≡◌, ◌⊎◌, None, IfOk, IfErr};
ghost use Rattle.verdict.specs.KeyPieces.{IsNumberOfWorkers, IsMemoryOrThread};
ghost use Rattle.hist_types.specs.Pieces.{HasTaken, HasTakenInPart};
ghost use Rattle.command_run.specs.Answers.{IsAnswer, Reports, keys_of};
ghost use Rattle.command_run.specs.Runs.{HasPrintedLack, HasRun};
ghost use Rattle.command_run.specs.Sources.{HasGiven, HasNoReport};
ghost use Rattle.command_line.specs.declared.types.Command.{Command};

use crate::answer::{Answer, Lack, Status};
use crate::judged::Judged;
use crate::judging::judged_of;
use crate::{check, edges, reads};
use block_reader::rounds::{InputFault, cells_for};
use command_line::types::Command;
use hist_types::device::{Failed, Sink, Source};
use hist_types::limits::MAX_WORKERS;
use hist_types::types::{Fault, KeyOrder, Refusal};
use hist_types::whole::write_all;
use history_laws::versions_written_once;
use key_versions::kept_of_written;
use report_text::short::refusal_line;
use std::alloc::Global;
use std::sync::Wait;
use std::thread::Threads;

/// The order of keys that the command rests on. Reads rest on none.
fn keys_of(command: Command) -> KeyOrder
    ensures { result ≡ keys_of command }
{
    match command {
        Command::Reads => KeyOrder::Basic,
        Command::Edges(keys) | Command::Check { keys, .. } => keys,
    }
}

/// How many threads may work for the command.
fn workers_of(command: Command) -> usize
    ensures { IsNumberOfWorkers result }
{
    match command {
        Command::Reads | Command::Edges(_) => 1,
        Command::Check { workers, .. } => workers.clamp(1, MAX_WORKERS as usize),
    }
}

/// What the command prints of operations that keep the rules.
fn report_on<R: Threads + Wait + Sync>(
    rt: &R,
    alloc: Global,
    command: Command,
    judged: Judged<'_>,
) -> Result<Answer, Fault>
    ensures ok { IfOk result
        (λ answer. Reports command judged.entry.core.events answer.status answer.printed.items) }
    ensures err { IfErr result IsMemoryOrThread }
{
    let Judged { core, pairing } = judged;
    let prefix = core.prefix()?;
    let events = prefix.as_events();
    // A law, called for its clause: the transactions write what the events do.
    versions_written_once();
    let txns = pairing.transactions();
    let kept = kept_of_written(alloc, &txns, core.into_written(), keys_of(command))?;
    match command {
        Command::Reads => reads::report(alloc, events, &txns, kept),
        Command::Edges(_) => edges::report(alloc, events, &txns, kept),
        Command::Check { .. } => {
            check::report(rt, alloc, workers_of(command), events, &txns, kept)
        }
    }
}

/// The report of a command on a source's text, unless that is refused.
fn judge<R: Threads + Wait + Sync, S: Source>(
    rt: &R,
    alloc: Global,
    command: Command,
    source: &mut S,
) -> Result<Answer, InputFault>
    ensures ok { IfOk result (λ answer. HasGiven S.Source source.old source.new
        (λ text. IsAnswer command text answer.status answer.printed.items)) }
    ensures err { IfErr result (HasNoReport S.Source source.old source.new) }
{
    // The blocks are in cells, so that they stay where they are while more are read.
    let cells = cells_for(alloc)?;
    let judged = judged_of(rt, alloc, workers_of(command), source, &cells)?;
    Ok(report_on(rt, alloc, command, judged)?)
}

/// What the program lacked by this fault. None where the fault is the text's.
fn lack_by(fault: Fault) -> Option<Lack>
    ensures { result ≡ None → IsMemoryOrThread fault → ⊥ }
{
    match fault.refusal {
        Refusal::Memory => Some(Lack::Memory),
        Refusal::NoThread => Some(Lack::Thread),
        _ => None,
    }
}

/// Prints the bytes, and returns how the run ended: by the status, unless the sink fails.
fn print<T: Sink>(sink: &mut T, status: Status, printed: &[u8]) -> Status
    ensures { ((result ≡ status) × HasTaken T.Sink sink.old sink.new printed.now)
        ⊎ ((result ≡ Status.DeviceFault)
        × HasTakenInPart T.Sink sink.old sink.new printed.now) }
{
    match write_all(sink, printed) {
        Ok(()) => status,
        Err(Failed) => Status::DeviceFault,
    }
}

/// Prints what the program lacked, which takes no memory.
pub fn print_lack<T: Sink>(sink: &mut T, lack: Lack) -> Status
    ensures { HasPrintedLack T.Sink lack result sink.old sink.new }
{
    print(sink, Status::Lacking, &refusal_line(lack.fault()))
}

/// Reads the whole source and prints the command's answer to it.
pub fn run<R: Threads + Wait + Sync, S: Source, T: Sink>(
    rt: &R,
    alloc: Global,
    command: Command,
    source: &mut S,
    sink: &mut T,
) -> Status
    // What is printed answers the source's bytes, and a device fault is reported exactly where a
    // device failed.
    ensures { HasRun S.Source T.Sink command result source.old source.new sink.old sink.new }
{
    match judge(rt, alloc, command, source) {
        Ok(answer) => print(sink, answer.status, &answer.printed),
        Err(InputFault::Device) => Status::DeviceFault,
        Err(InputFault::Text(fault)) => match lack_by(fault) {
            None => print(sink, Status::Refused, &refusal_line(fault)),
            Some(lack) => print_lack(sink, lack),
        },
    }
}
