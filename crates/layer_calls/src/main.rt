//! Makes calls of the layers up to `verdict` that nothing else makes, and prints what they return.
#![tactic(auto)]

ghost use Rattle.std.specs.Prelude.{IfOk};
ghost use Rattle.verdict.specs.KeyPieces.{IsNumberOfWorkers};

mod histories;
mod looks;
mod order;
mod ranks;
mod rows;
mod stopped;
mod workers;

use crate::histories::block_of_input;
use crate::stopped::Stopped;
use hist_types::device::Failed;
use hist_types::limits::MAX_WORKERS;
use hist_types::types::Refusal;
use std::alloc::Global;
use std::env;
use std::process::ExitCode;
use std::sync::Wait;
use std::thread::Threads;

/// The number of workers that a word is.
fn workers_of(word: &String) -> Result<usize, Stopped>
    ensures { IfOk result IsNumberOfWorkers }
{
    match word.parse::<usize>() {
        Ok(workers) if workers > 0 && workers <= MAX_WORKERS as usize => Ok(workers),
        _ => Err(Stopped::Usage),
    }
}

/// Makes the calls over the history of standard input that the words after the program's name ask
/// for.
fn run_over<R: Input + Print + Threads + Wait + Sync>(
    rt: &R,
    alloc: Global,
    words: &[String],
) -> Result<(), Stopped> {
    let block = block_of_input(rt, alloc)?;
    match words {
        [_, what] if what.as_str() == "looks" => looks::run(rt, alloc, &block),
        [_, what] if what.as_str() == "order" => order::run(rt, alloc, &block),
        [_, what] if what.as_str() == "meeting" => workers::run_meeting(rt, alloc, &block),
        [_, what, count] if what.as_str() == "workers" => {
            workers::run(rt, alloc, &block, workers_of(count)?)
        }
        _ => Err(Stopped::Usage),
    }
}

/// Prints what errors say that no fault's line has.
fn print_sentences<R: Print>(rt: &R) -> Result<(), Stopped> {
    println!(rt; "{}", Refusal::Busy)?;
    println!(rt; "{Failed}")?;
    Ok(())
}

/// Makes the calls that the words after the program's name ask for.
fn run<R: Input + Print + Threads + Wait + Sync>(
    rt: &R,
    alloc: Global,
    words: &[String],
) -> Result<(), Stopped> {
    match words {
        [_, what] if what.as_str() == "ranks" => ranks::run(rt, alloc),
        [_, what] if what.as_str() == "rows" => rows::run(rt, alloc),
        [_, what] if what.as_str() == "sentences" => print_sentences(rt),
        _ => run_over(rt, alloc, words),
    }
}

/// The words of the command line.
fn words_of(rt: &HostRuntime) -> Result<Vec<String>, Stopped> {
    Ok(env::args(rt)?.collect::<Vec<String>>(rt.alloc())?)
}

fn main(rt: HostRuntime) -> ExitCode {
    let ended = match words_of(&rt) {
        Ok(words) => run(&rt, rt.alloc(), &words),
        Err(stopped) => Err(stopped),
    };
    match ended {
        Ok(()) => ExitCode::SUCCESS,
        Err(stopped) => {
            let _ = eprintln!(rt; "{stopped}");
            ExitCode::FAILURE
        }
    }
}
