//! From what the command line asks for to what is done.

ghost use Rattle.std.specs.Prelude.{◌≡◌, IfOk, IfErr, OnErr};
ghost use Rattle.hist_types.specs.Pieces.{HasTakenUnlessFailed};
ghost use Rattle.command_run.specs.Runs.{HasRun, HasRefusedLine, complaint};

use crate::answer::{Lack, Status};
use crate::run::{print_lack, run};
use command_line::types::{Command, LineFault};
use hist_types::device::{Sink, Source};
use hist_types::whole::write_all;
use std::alloc::Global;
use std::sync::Wait;
use std::thread::Threads;

/// What is said on standard error: the help, what is wrong with the command line, or that a device
/// failed.
fn complaint(command: &Result<Command, LineFault>, status: Status) -> &[u8]
    ensures { result.now ≡ complaint command.now status }
{
    match (command, status) {
        (Err(LineFault::Usage(text)), _) => text.as_bytes(),
        (_, Status::DeviceFault) => b"device fault\n",
        _ => b"",
    }
}

/// Runs the command that the command line asks for, and returns how that ended. A sink for errors
/// that fails changes nothing.
pub fn dispatch<R: Threads + Wait + Sync, S: Source, T: Sink, E: Sink>(
    rt: &R,
    alloc: Global,
    command: Result<Command, LineFault>,
    source: &mut S,
    sink: &mut T,
    errors: &mut E,
) -> Status
    ensures run { IfOk command
        (λ what. HasRun S.Source T.Sink what result source.old source.new sink.old sink.new) }
    // A fault of the command line is refused, and the source is left alone.
    ensures refused { IfErr command (λ fault. HasRefusedLine T.Sink fault result sink.old sink.new) }
    ensures unread { OnErr command (source.new ≡ source.old) }
    // The sink for errors gets the help, what is wrong with the command line, or that a device
    // failed.
    ensures errors { HasTakenUnlessFailed E.Sink errors.old errors.new (complaint command result) }
{
    let status = match &command {
        Ok(command) => run(rt, alloc, *command, source, sink),
        Err(LineFault::Usage(_)) => Status::Refused,
        Err(LineFault::Memory) => print_lack(sink, Lack::Memory),
    };
    let _ = write_all(errors, complaint(&command, status));
    status
}
