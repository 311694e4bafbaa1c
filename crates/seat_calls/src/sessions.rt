//! Sessions over devices that fail, that move few bytes a call, or that wait for each other.

use crate::devices::{Awaiting, Dripping, Flagging, Sipping};
use crate::stopped::Stopped;
use hist_types::types::KeyOrder;
use live_journal::journal::Journal;
use std::alloc::Global;
use std::str;
use std::sync::Wait;
use std::sync::atomic::AtomicBool;
use std::thread::Threads;
use verdict_serve::clients::{Client, sessions};
use verdict_serve::session::session;

/// How many cells the journal of a session has.
const CELLS: usize = 2;

/// The lines of standard input, each with its end.
fn lines_of<R: Input>(rt: &R, alloc: Global) -> Result<String, Stopped> {
    let mut text = String::new(alloc);
    for line in rt.lines(alloc) {
        text.push_str(&line?)?;
        text.push('\n')?;
    }
    Ok(text)
}

/// A session of the lines of standard input over a source and a sink that move this many bytes a
/// call, and may fail at one of their calls. Prints how it ends, and what the sink took.
pub fn run<R: Input + Print + Wait>(
    rt: &R,
    alloc: Global,
    bytes_a_call: usize,
    reads: u64,
    writes: u64,
) -> Result<(), Stopped> {
    let text = lines_of(rt, alloc)?;
    let journal = Journal::new(alloc, CELLS, KeyOrder::Basic)?;
    let mut seat = journal.seat(0)?;
    let mut source = Dripping {
        rest: text.as_bytes(),
        bytes_a_call,
        calls_before_failure: reads,
        failures: 0,
    };
    let mut sink = Sipping {
        taken: Vec::new(alloc),
        bytes_a_call,
        calls_before_failure: writes,
        failures: 0,
    };
    let end = session(rt, alloc, &mut seat, &mut source, &mut sink);
    println!(rt; "{end:?}")?;
    print!(rt; "{}", str::from_utf8(&sink.taken).unwrap_or("not UTF-8"))?;
    Ok(())
}

/// A client with two lines, the second of which it sends only after the other client had a reply.
fn crossed<'a>(own: &'a AtomicBool, other: &'a AtomicBool) -> Client<Awaiting<'a>, Flagging<'a>> {
    Client {
        source: Awaiting {
            text: b"; first\n",
            later: b"; second\n",
            flag: other,
            failures: 0,
        },
        sink: Flagging { flag: own },
    }
}

/// Two sessions that wait for each other. Prints how they end.
pub fn run_crossed<R: Print + Threads + Wait + Sync>(rt: &R, alloc: Global) -> Result<(), Stopped> {
    let (left, right) = (AtomicBool::new(false), AtomicBool::new(false));
    let journal = Journal::new(alloc, 1, KeyOrder::Basic)?;
    let clients = Vec::from_array(alloc, [crossed(&left, &right), crossed(&right, &left)])?;
    for end in sessions(rt, alloc, &journal, clients)? {
        println!(rt; "{end:?}")?;
    }
    Ok(())
}
