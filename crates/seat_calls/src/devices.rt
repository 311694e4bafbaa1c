//! Devices that move few bytes a call, that fail at one of their calls, or that wait for others.

ghost use Rattle.std.specs.Prelude.{None};

use hist_types::device::{Failed, Sink, Source};
use std::hint;
use std::sync::atomic::{AtomicBool, Ordering};

/// How often a source looks whether a flag is set.
const TURNS: u64 = 10_000_000;

/// A source of a few bytes a call, which may fail at one of its calls.
#[derive(Drop)]
pub struct Dripping<'a> {
    pub rest: &'a [u8],
    pub bytes_a_call: usize,
    pub calls_before_failure: u64,
    pub failures: u64,
}

impl Source for Dripping<'_> {
    ghost remaining = { λ _. None };

    ghost failures = { λ source. source.failures };

    fn read(&mut self, room: &mut [u8]) -> Result<usize, Failed> {
        if self.calls_before_failure == 0 {
            self.failures = self.failures.saturating_add(1);
            return Err(Failed);
        }
        self.calls_before_failure -= 1;
        let count = room.len().min(self.rest.len()).min(self.bytes_a_call);
        let (given, rest) = self.rest.split_at(count);
        room[..count].copy_from_slice(given);
        self.rest = rest;
        Ok(count)
    }
}

/// A sink that takes a few bytes a call, and may fail at one of its calls.
#[derive(Drop)]
pub struct Sipping {
    pub taken: Vec<u8>,
    pub bytes_a_call: usize,
    pub calls_before_failure: u64,
    pub failures: u64,
}

impl Sink for Sipping {
    ghost contents = { λ _. None };

    ghost failures = { λ sink. sink.failures };

    fn write(&mut self, piece: &[u8]) -> Result<usize, Failed> {
        let count = piece.len().min(self.bytes_a_call.max(1));
        let (front, _) = piece.split_at(count);
        if self.calls_before_failure == 0 || self.taken.extend_from_slice(front).is_err() {
            self.failures = self.failures.saturating_add(1);
            return Err(Failed);
        }
        self.calls_before_failure -= 1;
        Ok(count)
    }
}

/// Whether the flag is set before it was looked at too often.
fn is_set_in_time(flag: &AtomicBool) -> bool {
    for _ in 0..TURNS {
        if flag.load(Ordering::SeqCst) {
            return true;
        }
        hint::spin_loop();
    }
    false
}

/// A source of two texts. Before the second one it waits until the flag is set, and fails if that
/// takes too long.
#[derive(Drop)]
pub struct Awaiting<'a> {
    pub text: &'a [u8],
    pub later: &'a [u8],
    pub flag: &'a AtomicBool,
    pub failures: u64,
}

impl Source for Awaiting<'_> {
    ghost remaining = { λ _. None };

    ghost failures = { λ source. source.failures };

    fn read(&mut self, room: &mut [u8]) -> Result<usize, Failed> {
        if self.text.is_empty() {
            if !is_set_in_time(self.flag) {
                self.failures = self.failures.saturating_add(1);
                return Err(Failed);
            }
            let (later, none) = self.later.split_at(self.later.len());
            self.text = later;
            self.later = none;
        }
        let count = room.len().min(self.text.len());
        let (given, rest) = self.text.split_at(count);
        room[..count].copy_from_slice(given);
        self.text = rest;
        Ok(count)
    }
}

/// A sink that sets a flag when it takes bytes.
#[derive(Drop)]
pub struct Flagging<'a> {
    pub flag: &'a AtomicBool,
}

impl Sink for Flagging<'_> {
    ghost contents = { λ _. None };

    ghost failures = { λ _. 0 };

    fn write(&mut self, piece: &[u8]) -> Result<usize, Failed> {
        self.flag.store(true, Ordering::SeqCst);
        Ok(piece.len())
    }
}
