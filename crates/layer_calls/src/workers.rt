//! Verdicts by several workers.

ghost use Rattle.verdict.specs.KeyPieces.{IsNumberOfWorkers};

use crate::stopped::Stopped;
use hist_types::types::KeyOrder;
use journal_core::journal::Core;
use op_block::block::Block;
use std::alloc::Global;
use std::hash::{BuildHasherDefault, FoldHasher};
use std::sync::Wait;
use std::sync::atomic::{AtomicBool, Ordering};
use std::thread::Threads;
use std::{hint, str};
use verdict::wide::{Gate, NoGate, verdict_wide};

/// How often a worker looks whether another one has entered.
const TURNS: u64 = 10_000_000;

/// Whether the flag is set before it was looked at too often.
fn is_set_in_time(flag: &AtomicBool) -> bool {
    for _ in 0..TURNS {
        if flag.load(Ordering::SeqCst) {
            return true;
        }
        hint::spin_loop();
    }
    false
}

/// Holds the pieces 0 and 1 until both have entered, or that takes too long.
#[derive(Drop)]
struct Meeting {
    has_entered: [AtomicBool; 2],
    has_met: [AtomicBool; 2],
}

impl Meeting {
    fn new() -> Meeting {
        Meeting {
            has_entered: [AtomicBool::new(false), AtomicBool::new(false)],
            has_met: [AtomicBool::new(false), AtomicBool::new(false)],
        }
    }

    /// Whether each of the two saw the other enter.
    fn have_both_met(&self) -> bool {
        self.has_met[0].load(Ordering::SeqCst) && self.has_met[1].load(Ordering::SeqCst)
    }
}

impl Gate for Meeting {
    fn enter(&self, piece: usize) {
        if piece < 2 {
            self.has_entered[piece].store(true, Ordering::SeqCst);
            let met = is_set_in_time(&self.has_entered[1 - piece]);
            self.has_met[piece].store(met, Ordering::SeqCst);
        }
    }
}

/// Prints the verdict on the history by this many workers, who enter the gate.
fn print_by<R: Print + Threads + Wait + Sync, G: Gate + Sync>(
    rt: &R,
    alloc: Global,
    block: &Block,
    workers: usize,
    gate: &G,
) -> Result<(), Stopped>
    requires { IsNumberOfWorkers workers }
{
    let core = Core::new(alloc).append(block)?;
    let hasher = BuildHasherDefault::<FoldHasher>::new();
    let prefix = core.prefix()?;
    let verdict = verdict_wide(rt, alloc, &prefix, hasher, workers, gate, KeyOrder::Basic)?;
    print!(rt;
        "{}",
        str::from_utf8(verdict.text()).unwrap_or("not UTF-8\n")
    )?;
    Ok(())
}

/// Prints the verdict on the history by this many workers.
pub fn run<R: Print + Threads + Wait + Sync>(
    rt: &R,
    alloc: Global,
    block: &Block,
    workers: usize,
) -> Result<(), Stopped>
    requires { IsNumberOfWorkers workers }
{
    print_by(rt, alloc, block, workers, &NoGate)
}

/// Prints the verdict on the history by two workers, and whether both looked at their pieces at the
/// same time.
pub fn run_meeting<R: Print + Threads + Wait + Sync>(
    rt: &R,
    alloc: Global,
    block: &Block,
) -> Result<(), Stopped> {
    let meeting = Meeting::new();
    print_by(rt, alloc, block, 2, &meeting)?;
    println!(rt; "met {}", meeting.have_both_met())?;
    Ok(())
}
