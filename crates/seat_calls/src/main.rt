//! Makes calls that `jepcheck` doesn't make, as words and the lines of standard input ask for them,
//! and prints what they return. The words are:
//!
//!     calls KEYS CELLS SEATS       calls of the seats of a journal (`journals`)
//!     races CELLS SEATS            writes of which another seat's comes first (`races`)
//!     analysis KEYS                an analysis that is kept (`analyses`)
//!     session PIECE READS WRITES   a session over devices that fail (`sessions`)
//!     sessions                     two sessions that wait for each other (`sessions`)
#![tactic(auto)]

ghost use Rattle.std.specs.Prelude.{◌≤◌, IfOk};

mod analyses;
mod calls;
mod devices;
mod hashers;
mod journals;
mod races;
mod sessions;
mod stopped;

use crate::stopped::Stopped;
use hist_types::limits::MAX_CELLS;
use hist_types::types::KeyOrder;
use std::alloc::Global;
use std::env;
use std::process::ExitCode;
use std::sync::Wait;
use std::sync::atomic::AtomicU64;
use std::thread::Threads;
use std::time::Clock;

/// The most seats of a journal.
const MAX_SEATS: u64 = 1_000;

/// The number that a word is, which is at most this.
fn number_of(word: &String, most: u64) -> Result<u64, Stopped>
    ensures { IfOk result (λ number. number ≤ most) }
{
    match word.parse::<u64>() {
        Ok(number) if number <= most => Ok(number),
        _ => Err(Stopped::Usage),
    }
}

fn cells_of(word: &String) -> Result<usize, Stopped> {
    Ok(number_of(word, MAX_CELLS as u64)? as usize)
}

fn seats_of(word: &String) -> Result<u32, Stopped> {
    Ok(number_of(word, MAX_SEATS)? as u32)
}

fn keys_of(word: &String) -> Result<KeyOrder, Stopped> {
    match word.as_str() {
        "basic" => Ok(KeyOrder::Basic),
        "sequential" => Ok(KeyOrder::Sequential),
        _ => Err(Stopped::Usage),
    }
}

/// Makes the calls of a session over devices.
fn run_session<R: Input + Print + Wait>(
    rt: &R,
    alloc: Global,
    piece: &String,
    reads: &String,
    writes: &String,
) -> Result<(), Stopped> {
    let (piece, reads) = (cells_of(piece)?, number_of(reads, u64::MAX)?);
    sessions::run(rt, alloc, piece, reads, number_of(writes, u64::MAX)?)
}

/// Makes the calls that the words after the program's name ask for.
fn run<R: Input + Print + Clock + Threads + Wait + Sync>(
    rt: &R,
    alloc: Global,
    words: &[String],
) -> Result<(), Stopped> {
    let built = AtomicU64::new(0);
    match words {
        [_, what, keys, cells, seats] if what.as_str() == "calls" => {
            let (keys, cells) = (keys_of(keys)?, cells_of(cells)?);
            journals::run(rt, alloc, &built, keys, cells, seats_of(seats)?)
        }
        [_, what, keys] if what.as_str() == "analysis" => {
            analyses::run(rt, alloc, &built, keys_of(keys)?)
        }
        [_, what, cells, seats] if what.as_str() == "races" => {
            races::run(rt, alloc, &built, cells_of(cells)?, seats_of(seats)?)
        }
        [_, what, piece, reads, writes] if what.as_str() == "session" => {
            run_session(rt, alloc, piece, reads, writes)
        }
        [_, what] if what.as_str() == "sessions" => sessions::run_crossed(rt, alloc),
        _ => Err(Stopped::Usage),
    }
}

/// The words of the command line.
fn words_of(rt: &HostRuntime) -> Result<Vec<String>, Stopped> {
    Ok(env::args(rt)?.collect::<Vec<String>>(rt.alloc())?)
}

fn main(rt: HostRuntime) -> ExitCode {
    let ended = match words_of(&rt) {
        Ok(words) => run(&rt, rt.alloc(), &words),
        Err(stopped) => Err(stopped),
    };
    match ended {
        Ok(()) => ExitCode::SUCCESS,
        Err(stopped) => {
            let _ = eprintln!(rt; "{stopped}");
            ExitCode::FAILURE
        }
    }
}
